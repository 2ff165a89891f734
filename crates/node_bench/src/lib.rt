//! A bench for all kinds of node: one node, and links of which the test is the other end; and the tests of
//! the kinds on it.
//!
//! A test tells rounds as rows of `(round, offered, moved)`: what stands on the links anew as the round
//! begins, and what the node takes and puts in it. In a round without a row nothing comes, and the node
//! moves nothing. The node decides between the two: what it puts stays on its links until a row takes
//! it. A kind says by [`Benched`] when its nodes may decide; then [`Bench::run`] plays the rows.
//!
//! ```text
//! let mut bench = Bench::new(rt.alloc(), SliceNode::new(0, 1), 2, 1)?;
//! let taken = Out { aw_take: Some(0), aw_put: Some((1, request)), ..Out::default() };
//! let offered = Out { aw_put: Some((0, request)), ..Out::default() };
//! bench.run(&[Row { round: 2, offered, moved: taken }])?;
//! ```
#![tactic(auto)]

mod bench;
mod fault;
mod moves;
mod row;
mod same;
#[cfg(test)]
mod tests;

pub use bench::{Bench, Benched};
pub use fault::BenchFault;
pub use row::Row;
