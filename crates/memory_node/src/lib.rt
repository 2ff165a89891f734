//! A memory at the end of a link: it takes the writes and reads that come, and answers them in the
//! order in which they came, each row of its table as its pace lets it. Each may be any legal burst on
//! its bus of 4 to 128 bytes, of all three kinds, with unaligned starts, narrow beats and any strobes.
//!
//! A memory keeps the bytes of the lines that a run may write; all other bytes have its fill value. Bytes
//! of a range that is read only can't be written, and those of a hole can't be read: they have the status
//! SLVERR. Outside the memory the status is DECERR. (Arm IHI 0022, transfer behavior and transaction
//! ordering: a subordinate; read and write response structure.)
//!
//! What it does in a round is its table, in `specs/MemoryTable`. What holds of it between other nodes
//! stands on the functions without a body, as for all kinds.
#![tactic(auto)]

mod area;
mod beats;
mod config;
mod memory;
mod memory_laws;
mod offers;
mod rows;
mod store;

pub use config::{MemoryConfig, Range};
pub use memory::{MemoryNode, crosses_threads};
pub use memory_laws::{laws_of_bytes, laws_of_rows, laws_of_table, laws_of_trails, laws_of_ways};
