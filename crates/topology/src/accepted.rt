//! What holds of accepted documents.

ghost use Rattle.topology.specs.Accepted.{AcceptedIsAcyclic, AcceptedIsClean, LinksAreHandedDown, LinksAreNarrow};

/// The laws of accepted documents. Each is told in plain words in `specs/Accepted.antt`.
pub fn laws_of_accepted()
    ensures clean { AcceptedIsClean }
    ensures acyclic { AcceptedIsAcyclic }
    ensures links { LinksAreHandedDown }
    ensures narrow { LinksAreNarrow }
{}
