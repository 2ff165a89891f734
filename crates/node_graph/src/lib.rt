//! Directed graphs of numbered nodes: what is below a node and above it, cycles, and orders that lead downwards.
#![tactic(auto)]

pub use graph::NodeGraph;
pub use graph_laws::laws;

mod cycle;
mod graph;
mod graph_laws;
mod order;
mod ranks;
