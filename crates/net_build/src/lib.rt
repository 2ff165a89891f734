//! The network of a plan with its traffic: built, and run round by round.
//!
//! Each plan node becomes a node of its kind, with the keys of its document node; managers have the
//! transactions of the traffic, and memories keep the lines that it writes. A clause sees [`Net`] as the
//! document, the transactions and the rounds that were made, of which `specs/NetRun` tells the network.
#![tactic(auto)]

mod ends;
mod lines;
mod linked;
mod links;
mod memories;
mod net;
mod nodes;
mod notes;
mod parts;
mod ranges;
mod source;
mod targets;
mod told;

pub use net::Net;
