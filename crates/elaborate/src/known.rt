//! Documents whose plans are known.

ghost use Rattle.elaborate.specs.KnownPlans.{PlansAreKnown};

/// The plan nodes and links of some documents, and the paths of some addresses.
pub fn known_plans()
    ensures { PlansAreKnown }
{}
