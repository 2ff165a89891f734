//! A remapper between two links: it sends each request on under an ID of the link below, and the
//! answers back under the ID that the request came with. (Arm IHI 0022, transaction identifiers.)
//!
//! An ID keeps the one that stands for it below for as long as a request with it isn't answered, so
//! that the answers of an ID come in order; where no ID is left below, a request waits. A contract sees
//! a remapper as its state between rounds, and as what it takes and puts in the round. What it does in
//! a round is its table, in `specs/RemapTable`. What holds of it between other nodes, whatever they
//! are, stands on the functions without a body.
#![tactic(auto)]

mod moves;
mod pair;
mod remap;
mod remap_laws;
mod rows;

pub use pair::IdPair;
pub use remap::{RemapNode, crosses_threads};
pub use remap_laws::{laws_of_table, laws_of_trails, laws_of_ways, local_laws};
