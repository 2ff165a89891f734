//! A demux below one link and above several, its ports: it sends each request on by the port of its
//! address, and the answers back. (Arm IHI 0022, transaction ordering.)
//!
//! Requests of one ID that aren't answered keep to one port, so that their answers come in order, and so
//! do writes that lack data, so that no network of demuxes and muxes is stuck. A contract sees a demux
//! as its state between rounds, and as what it takes and puts in the round. What it does in a round is
//! its table, in `specs/DemuxTable`.
#![tactic(auto)]

mod demux;
mod demux_laws;
mod moves;
mod route;
mod rows;
mod shape;

pub use demux::{DemuxNode, crosses_threads};
pub use demux_laws::{laws_of_table, laws_of_trails, laws_of_ways, local_laws};
pub use route::{Route, WriteRoute};
