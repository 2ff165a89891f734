//! What holds of the IDs of requests and answers, whatever a node does.

ghost use Rattle.axi_trail.specs.IdLaws.{AnswersHaveRequests, NoneHeldByCount, HeldOfOneId, OrderIsOrderOfId, OrderOfOtherIds, AnsweredOfOtherIds, HeldOfOtherIds};

/// The laws of IDs (Arm IHI 0022, transaction identifiers): each answer has its request; one ID for
/// all; and other IDs in place of those that are given.
pub fn laws_of_ids()
    ensures requests { AnswersHaveRequests }
    ensures count { NoneHeldByCount }

    // One ID.
    ensures one { HeldOfOneId }
    ensures each { OrderIsOrderOfId }

    // Other IDs.
    ensures order { OrderOfOtherIds }
    ensures answered { AnsweredOfOtherIds }
    ensures held { HeldOfOtherIds }
{}
