//! A slice between two links: it passes every beat on, unchanged, a round later. (Arm IHI 0022, register
//! slices.)
//!
//! A contract sees a slice as the numbers of its two links, and as what it takes and puts in the round.
//! What it does in a round is its table, in `specs/SliceTable`. What holds of it between other nodes,
//! whatever they are, stands on the functions without a body: on [`laws_of_table`] what its table does on any
//! links, on [`local_laws`] that it does all that it can, and on [`laws_of_trails`] that it asks below
//! as it is asked above, answers above as it is answered below, and holds nothing back.
#![tactic(auto)]

mod slice;
mod slice_laws;

pub use slice::{SliceNode, crosses_threads};
pub use slice_laws::{laws_of_table, laws_of_trails, laws_of_ways, local_laws};
