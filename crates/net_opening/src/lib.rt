//! The network of a plan before its first round: its links, and each of its nodes as its kind begins, with
//! the keys of the document and the transactions of the traffic.
#![tactic(auto)]

mod known;
mod lines;

pub use known::known_openings;
pub use lines::upwards;
