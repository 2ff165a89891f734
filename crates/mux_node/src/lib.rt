//! A mux between several links, its inputs, and one below: it sends the requests of all inputs on, each
//! with its input in its ID, and the answers back by the input in theirs. (Arm IHI 0022, transaction
//! identifiers.)
//!
//! On AW and on AR the inputs take turns. Write data goes on in order of the write addresses, so a mux
//! remembers the inputs of the addresses whose data isn't through. A contract sees a mux as its state
//! between rounds, and as what it takes and puts in the round. What it does in a round is its table, in
//! `specs/MuxTable`. What holds of it between other nodes, whatever they are, stands on the functions
//! without a body.
#![tactic(auto)]

mod mux;
mod mux_laws;
mod rows;
mod shape;

pub use mux::{MuxNode, crosses_threads};
pub use mux_laws::{laws_of_table, laws_of_trails, laws_of_ways, local_laws};
