//! What all subordinates share: the open requests and the rows by which they are taken and answered, and
//! that their answers come as the standard wants them. (Arm IHI 0022, transfer behavior and transaction
//! ordering.)
#![tactic(auto)]

mod entry;
mod rows;

pub use entry::{ReadEntry, WriteEntry};
pub use rows::{lacking, note_put, put_b, take_ar, take_aw, wanted, with_status};
