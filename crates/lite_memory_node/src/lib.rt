//! A Lite memory at the end of an AXI4-Lite link: a memory whose requests are for whole words of its bus.
//! It answers all lanes of the word, with the word's status, and honours every strobe; of a read it tells
//! the lanes alone that the request's tag names, since no other ones are wanted. (Arm IHI 0022, AXI4-Lite.)
//!
//! What it does in a round is a memory's table. What holds of it between other nodes stands on the
//! functions without a body, as for all kinds.
#![tactic(auto)]

mod lite_memory;
mod lite_memory_laws;

pub use lite_memory::{LiteMemoryNode, crosses_threads};
pub use lite_memory_laws::{
    laws_of_rows, laws_of_table, laws_of_trails, laws_of_ways, laws_of_words,
};
