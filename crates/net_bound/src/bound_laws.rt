//! By when the run of a plan is finished.

ghost use Rattle.net_bound.specs.BoundLaws.{RunsEndInTime, UnfinishedBeforeBound};

/// With traffic that suits it, the network of a document that can run has answered all transactions after as
/// many rounds as its bound, or earlier.
pub fn runs_end_in_time()
    ensures { RunsEndInTime }
{}

/// So a run that was never finished so far has made fewer rounds than its bound.
pub fn unfinished_before_bound()
    ensures { UnfinishedBeforeBound }
{}
