//! What holds of the first place of a key, whatever a node does with its entries.
ghost use Rattle.flight.specs.Laws.{FirstPlaceIsOldest, NoPlaceIsNoEntry};

/// The laws of the first place of a key. Each is told in plain words in `specs/Laws.antt`.
/// (Arm IHI 0022, ordering model.)
pub fn laws()
    ensures place { FirstPlaceIsOldest }
    ensures absent { NoPlaceIsNoEntry }
{}
