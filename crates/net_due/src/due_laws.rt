//! What is due of the transactions of a plan's network, and that its runs are right.

ghost use Rattle.net_due.specs.DueLaws.{PlanRunsAreRight, TransactionsAreDue};

/// The transactions of each manager of a plan's network are those that are due by the plan: of the same
/// targets, bytes and responses, and in the same order.
pub fn transactions_are_due()
    ensures { TransactionsAreDue }
{}

/// After any number of rounds of a document's network, with traffic that suits it, what is due by the plan
/// was delivered and answered so far as it should be, and once the network is finished, all of it.
pub fn plan_runs_are_right()
    ensures { PlanRunsAreRight }
{}
