//! `Step`, which every kind of node is.

ghost use Rattle.std.specs.Prelude.{◌≡◌, ℕ, List};
ghost use Rattle.axi_link.specs.LinkView.{LinkView};
ghost use Rattle.axi_link.specs.declared.out.Out.{Out};
ghost use Rattle.node_core.specs.Fits.{MovesFit};

use axi_link::{Link, Out};

/// A node of a network. Its kind is its decision table: each member below is what an implementation has
/// to give, and each clause of [`decide`](Step::decide) a law that it has to prove.
pub trait Step {
    // When it may decide: the round's number and the links as they stand as the round begins.
    ghost can: { ℕ → List LinkView → Self → Type 0 };

    // The table: the node after it decided in this round on these links.
    ghost table: { ℕ → List LinkView → Self → Self };

    // The moves that the node chose when it decided last.
    ghost moves: { Self → Out };

    // What holds of the node between rounds.
    ghost fact: { Self → Type 0 };

    /// Phase one of round `round`, counted from 1: looks at the links as they stand, changes the node's
    /// own state and sets its own moves, by the table of its kind. Each take has its head and each put
    /// its room, and what holds of the node between rounds holds again.
    fn decide(&mut self, round: u64, links: &[Link])
        requires { can round links.now self.old }
        ensures table { self.new ≡ table round links.now self.old }
        ensures fit { MovesFit links.now (moves self.new) }
        ensures fact { fact self.new };

    /// The moves that the node chose when it decided last; none before the first round.
    fn out(&self) -> &Out
        ensures { result.now ≡ moves self.now };
}
