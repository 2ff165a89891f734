//! What holds of requests, their write data and their answers, whatever a node does.

ghost use Rattle.axi_trail.specs.WordLaws.{OneMoreBurst, BeginningOfMarks, MarksOfSelected, BurstsEndAtLast};
ghost use Rattle.axi_trail.specs.WordLaws.{BeatOfFirstPending, RequestIsPending, PendingAreLast, NonePending, PendingOweTheRest, PendingOfSelected, PendingOfShown, CompletedAreComplete, NextBeat, NextBeatOfSelected, BeatKeepsOrder, FirstPendingIsNextOfItsOwn};
ghost use Rattle.axi_trail.specs.WordLaws.{AnswerOfOldestHeld, RequestIsHeld, HeldOfId, HeldOfSingles, HeldOfShown, HeldOfSelected, LaterRequestsAreHeld, NextAnswer, AnswerKeepsOrder, UnansweredIsHeld, NoneHeldIsAnswered};

/// The laws of the marks of bursts. The mark of a beat is the number of its transaction, and whether
/// it is the last beat of its burst.
pub fn laws_of_marks()
    ensures burst { OneMoreBurst }
    ensures marks { BeginningOfMarks }
    ensures selection { MarksOfSelected }
    ensures ends { BurstsEndAtLast }
{}

/// The laws of *pending* requests: those that lack write data, where data comes in order of the
/// requests.
pub fn laws_of_pending()
    // One more beat, or request.
    ensures beat { BeatOfFirstPending }
    ensures request { RequestIsPending }

    // Which requests are pending.
    ensures parts { PendingAreLast }
    ensures none { NonePending }
    ensures rest { PendingOweTheRest }
    ensures selection { PendingOfSelected }
    ensures shown { PendingOfShown }
    ensures completed { CompletedAreComplete }

    // Which beat is the next.
    ensures next { NextBeat }
    ensures next_of_selected { NextBeatOfSelected }
    ensures next_of_its_own { FirstPendingIsNextOfItsOwn }
    ensures keeps { BeatKeepsOrder }
{}

/// The laws of *held* requests: those that lack answers, where the answers of each ID come in order
/// of its requests (Arm IHI 0022, ordering model).
pub fn laws_of_held()
    // One more answer beat, or request.
    ensures answer { AnswerOfOldestHeld }
    ensures request { RequestIsHeld }
    ensures later { LaterRequestsAreHeld }

    // Which requests are held.
    ensures id { HeldOfId }
    ensures singles { HeldOfSingles }
    ensures shown { HeldOfShown }
    ensures selection { HeldOfSelected }
    ensures unanswered { UnansweredIsHeld }
    ensures none { NoneHeldIsAnswered }

    // Which answer beat is the next.
    ensures next { NextAnswer }
    ensures keeps { AnswerKeepsOrder }
{}
