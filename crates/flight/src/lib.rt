//! A list of at most 16 requests that wait for their answers, oldest first.
//!
//! A node files what it has passed on under a key, the ID of the request for example, and looks for
//! the oldest entry of a key where an answer comes back. A clause sees the list as the list of its
//! entries. (Arm IHI 0022, ordering model.)
#![tactic(auto)]

pub use entries::{Filed, Flight, crosses_threads};
pub use entry_laws::laws;

mod entries;
mod entry_laws;
#[cfg(test)]
mod tests;
