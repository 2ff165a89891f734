//! The reader of traffic: the lines that say what the managers of a network write and read, and in
//! which order.
//!
//! A line is `write MANAGER ID ADDRESS SIZE KIND DATA ..` with one data word for each beat,
//! `read MANAGER ID ADDRESS SIZE KIND BEATS`, or `wait MANAGER`. One without a word says nothing, nor
//! does one whose first word begins with `#`.
//!
//! [`read_traffic`] accepts exactly the texts that the definitions of `specs/` accept, and answers
//! their transactions; else it answers the refusal with the least code, of the first line that has it.
#![tactic(auto)]

mod bound;
mod build;
mod data;
mod laws;
mod line;
mod managers;
mod order;
mod read;
mod refusal;
mod transactions;

pub use bound::round_bound;
pub use laws::{accepted_traffic_suits, least_is_told};
pub use order::{MOST_BEATS, MOST_TRANSACTIONS};
pub use read::read_traffic;
pub use transactions::Traffic;
