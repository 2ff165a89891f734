//! Rows, and what stands in them.

use axi_link::Out;

/// A round of a test: its number, what comes to stand on the links as it begins, and what the node then
/// moves. Both are told as moves: what is put on a link is offered there, and what is taken is made
/// room for.
#[derive(Clone, Copy)]
pub struct Row {
    /// The round, from 1.
    pub round: u64,
    /// The moves of the nodes at the other ends of the links, on each channel one.
    pub offered: Out,
    /// The moves of the node.
    pub moved: Out,
}
