//! What holds of every document.

ghost use Rattle.document.specs.PlanLaws.{PlansFollowDocuments};
ghost use Rattle.document.specs.Runnable.{AcceptedAreRunnable};

/// The law that what an accepted document asks for can be run: its nodes are formed and accepted, all
/// kinds are built, and the transactions suit the nodes.
pub fn accepted_documents_are_runnable()
    ensures { AcceptedAreRunnable }
{}

/// The law that a document is planned by the same nodes, and with the bound of the same transactions, as it is run; that one
/// that is planned without a bound is refused for its traffic; and that one that isn't planned is refused for the same cause.
pub fn plans_follow_documents()
    ensures { PlansFollowDocuments }
{}
