//! A Lite bridge between an AXI4 link and an AXI4-Lite link below it: it asks there for whole words under
//! ID 0, and sends the answers back under the IDs of the requests. (Arm IHI 0022, AXI4-Lite.)
//!
//! An AXI4-Lite link has no bursts, so only single beats come to a bridge: what cuts bursts stands above
//! it. Its answers come in the order of the requests, so a bridge remembers the IDs of the requests that
//! aren't answered. The tag of a request below names the lanes that are wanted. A contract sees a bridge
//! as its state between rounds, and as what it takes and puts in the round. What it does in a round is its
//! table, in `specs/LiteTable`. What holds of it between other nodes, whatever they are, stands on the
//! functions without a body.
#![tactic(auto)]

mod lite;
mod lite_laws;
mod rows;

pub use lite::{LiteNode, crosses_threads};
pub use lite_laws::{laws_of_table, laws_of_trails, laws_of_ways, local_laws};
