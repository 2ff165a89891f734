//! A burst splitter between two links: each beat of a burst goes on as a burst of its own, and the answers
//! to these come back as the burst's. What stands below it then need not know of bursts. (Arm IHI 0022,
//! burst length, read and write response structure.)
//!
//! A contract sees a splitter as its links, the bursts that it is putting on and those that aren't wholly
//! answered, and as what it takes and puts in the round. What it does in a round is its table, in
//! `specs/SplitTable`. What holds of it between other nodes, whatever they are, stands on the functions
//! without a body: on [`laws_of_table`] what its table does on any links, on [`local_laws`] that it does
//! all that it can, on [`laws_of_ways`] what goes through it, and on [`laws_of_trails`] that it asks below
//! as it is asked above, answers above as it is answered below, and holds nothing back.
#![tactic(auto)]

mod burst;
mod rows;
mod split;
mod split_laws;

pub use split::{SplitNode, crosses_threads};
pub use split_laws::{laws_of_table, laws_of_trails, laws_of_ways, local_laws};
