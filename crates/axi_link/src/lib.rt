//! The link between two nodes: five bounded queues of beats, one a channel.
//!
//! The node above a link puts AW, W and AR beats and takes B and R beats; the node below does the
//! reverse. What a node does in a round stands in its [`Out`], and [`Link::commit`] makes the moves
//! that the two nodes of a link chose. A contract sees a link as five lists, oldest beat first, and
//! a depth. VALID of a channel is 'the list isn't empty', READY is 'its receiver takes the head'.
//! (Arm IHI 0022, basic read and write transactions: handshake process.)
#![tactic(auto)]

mod link;
mod out;
#[cfg(test)]
mod tests;

pub use link::{Link, crosses_threads};
pub use out::Out;
