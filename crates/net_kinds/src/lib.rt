//! One type for the nodes of a network, whatever their kind.
//!
//! Each kind has its table and its laws in its own crate. Here stands the choice among them, and that
//! all of them together are a kind of which networks can be made.
#![tactic(auto)]

mod any_node;
mod node;
mod node_laws;

pub use node::{Node, crosses_threads};
pub use node_laws::{laws, laws_of_responses};
