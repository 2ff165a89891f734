//! What holds of requests whose beats are requests of their own, and of the answers to them.

ghost use Rattle.burst_cuts.specs.CutLaws.{AnsweredOfCut, CompletedOfCut, HeldOfCut, MarksOfCut, OneIdOfCut, OneIdOfWhole};
ghost use Rattle.burst_cuts.specs.CutLaws.{PartIsOfOldest, WholeGroupsHeld, WholeGroupsInOrder};

/// The laws of requests that are cut into single beats (Arm IHI 0022, ordering model): answers to the
/// parts are taken as beats of answers to the requests.
pub fn laws_of_cuts()
    // The parts of all requests, in order.
    ensures marks { MarksOfCut }
    ensures held { HeldOfCut }
    ensures answered { AnsweredOfCut }
    ensures one_id { OneIdOfCut }

    // An answer to a part is a beat of the oldest request of its ID.
    ensures part { PartIsOfOldest }

    // One answer for each request whose parts are all answered.
    ensures order { WholeGroupsInOrder }
    ensures groups_held { WholeGroupsHeld }
    ensures whole { CompletedOfCut }
    ensures whole_id { OneIdOfWhole }
{}
