//! What holds of the paths over a plan, and of the order of its nodes.

ghost use Rattle.elaborate.specs.PathLaws.{ManagersStandFirst, PageHasOnePath, PathBeginsAtManager, PathEndsAtEndpoint, PathFollowsLinks, PlanOrderIsWhole, PlanOrderLeadsDown};

/// The laws of paths. Each is told in plain words in `specs/PathLaws.antt`.
pub fn laws_of_paths()
    ensures begins { PathBeginsAtManager }
    ensures follows { PathFollowsLinks }
    ensures ends { PathEndsAtEndpoint }
    ensures page { PageHasOnePath }
{}

/// The laws of the order of plan nodes.
pub fn laws_of_order()
    ensures whole { PlanOrderIsWhole }
    ensures down { PlanOrderLeadsDown }
    ensures managers { ManagersStandFirst }
{}
