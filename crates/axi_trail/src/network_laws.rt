//! From the nodes of a network to the whole of it.

ghost use Rattle.axi_trail.specs.NetworkLaws.{RoundByRound};

/// The induction over the rounds of a network. Where every new node keeps its part, asking goes down
/// from link to link, answering goes up, and a node between such links keeps its part for one more
/// round, all of this holds after any number of rounds.
pub fn law_of_rounds()
    ensures { RoundByRound }
{}
