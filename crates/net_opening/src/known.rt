//! Plans whose openings are known.

ghost use Rattle.net_opening.specs.KnownOpenings.{OpeningsAreKnown};

/// The links of some plans by their nodes, their forms, and the lines that some writes touch.
pub fn known_openings()
    ensures { OpeningsAreKnown }
{}
