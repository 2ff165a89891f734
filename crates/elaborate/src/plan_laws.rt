//! What holds of the plan of every accepted document.

ghost use Rattle.elaborate.specs.Laws.{LowersAreNodes, NoneIsAbove, NoneIsTwiceBelow, OneIsAbove, PlanIsAcyclic, SomeIsAbove};

/// The laws of plans. Each is told in plain words in `specs/Laws.antt`.
pub fn laws()
    ensures acyclic { PlanIsAcyclic }
    ensures nodes { LowersAreNodes }
    ensures one { OneIsAbove }
    ensures some { SomeIsAbove }
    ensures none { NoneIsAbove }
    ensures twice { NoneIsTwiceBelow }
{}
