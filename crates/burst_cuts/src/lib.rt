//! Bursts that are cut into single beats: each beat goes on as a burst of its own, and the answers to a
//! burst's parts make up its answer. (Arm IHI 0022, burst length, burst address structure, read and
//! write response structure.)
//!
//! There is no code here: the definitions are in `specs`, and each function has an empty body, whose
//! contract says laws that hold of the definitions, for every kind of node that cuts bursts or joins
//! the answers to them.
#![tactic(auto)]

mod cut_laws;
mod part_laws;

pub use cut_laws::laws_of_cuts;
pub use part_laws::{laws_of_groups, laws_of_parts};
