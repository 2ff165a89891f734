//! Bursts: which are legal, where their beats lie, and which lanes of a beat hold valid bytes.
//!
//! `specs/` has the formulas of the standard, the bytes of a burst as one list, the lanes that they
//! stand on, and the laws that [`laws`] and [`laws_of_lanes`] promise. (Arm IHI 0022, burst address
//! structure.)
#![tactic(auto)]

pub use address::{beat_address, lanes};
pub use burst_laws::laws;
pub use count::{beat_count, burst_count};
pub use lane_laws::laws_of_lanes;
pub use rule::{BurstRule, legal};

mod address;
mod burst_laws;
mod count;
mod lane_laws;
mod rule;
#[cfg(test)]
mod tests;
