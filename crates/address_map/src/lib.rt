//! Regions of addresses, each with the port that serves it, and the map that finds a port.
//!
//! A map is seen as the list of its regions in the order in which they were given. `specs/` says when
//! a region is bad and when two share an address, and has the laws that [`laws`] promises.
#![tactic(auto)]

pub use map::{AddressMap, MapFault};
pub use map_laws::laws;
pub use overlap::are_apart;
pub use region::Region;

mod map;
mod map_laws;
mod overlap;
mod region;
#[cfg(test)]
mod tests;
