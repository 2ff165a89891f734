//! An error subordinate at the end of a link: it takes the writes and reads that come, writes nothing, and
//! answers each with DECERR and zeros, in the order in which they came. A node that sends transactions by
//! their address sends those of no region there. (Arm IHI 0022, read and write response structure.)
//!
//! What it does in a round is its table, in `specs/ErrorTable`. What holds of it between other nodes
//! stands on the functions without a body, as for all kinds.
#![tactic(auto)]

mod error;
mod error_laws;
mod rows;

pub use error::{ErrorNode, crosses_threads};
pub use error_laws::{laws_of_rows, laws_of_table, laws_of_trails, laws_of_ways};
