//! Documents of which it is known whether they are refused, and why.

ghost use Rattle.topology.specs.KnownDocuments.{DocumentsAreKnown};

/// Which of some documents are refused, for which cause, and at which node.
pub fn known_documents()
    ensures { DocumentsAreKnown }
{}
