//! The laws of the reader: what holds of every text.

ghost use Rattle.plan_traffic.specs.Accepted.{AcceptedSuits};
ghost use Rattle.plan_traffic.specs.Refusals.{LeastIsTold};

/// The law that the transactions of lines that aren't refused suit their managers, stand in order and
/// aren't too many.
pub fn accepted_traffic_suits()
    ensures { AcceptedSuits }
{}

/// The law that of the refusals of all lines the one with the least code is told, and of those with
/// one code the one of the first line; and that none is told only where no line is refused.
pub fn least_is_told()
    ensures { LeastIsTold }
{}
