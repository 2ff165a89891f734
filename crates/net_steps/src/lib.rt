//! A network that runs, round by round.
//!
//! A clause sees [`Net`] as the network of `net_model`, the rounds that were made and whether the nodes
//! have decided in the next one. Its phases are those of the definition; that they can be made in every
//! round of each network that can be run is a law (`run_laws`). No call after [`Net::new`] takes memory.
#![tactic(auto)]

mod calls;
mod net;
mod offers;
mod phase;
mod run_laws;

pub use net::Net;
pub use run_laws::laws_of_rounds;
