//! The beats that travel on the five channels of an AXI port, and the responses they carry.
//!
//! AW and AR carry an [`Addr`], W a [`WBeat`], B a [`BBeat`] and R an [`RBeat`]. All are plain
//! values: a contract sees each of them as the record of its fields, and [`Lanes`] as the list of
//! its 128 bytes. [`Burst`] and [`Resp`] have the codes that their signals carry. [`is_bus_width`] is
//! the test of a data bus's width. [`NoMemory`] stands here too, for all crates that stand on this
//! one. (Arm IHI 0022, channel signals.)
#![tactic(auto)]

mod beat;
mod bus;
mod code_laws;
mod lanes;
mod no_memory;
mod response;
#[cfg(test)]
mod tests;

pub use beat::{Addr, BBeat, Burst, RBeat, Tag, WBeat};
pub use bus::is_bus_width;
pub use code_laws::laws;
pub use lanes::Lanes;
pub use no_memory::NoMemory;
pub use response::{Resp, worst};
