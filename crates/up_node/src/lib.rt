//! An up converter between a link with a narrow bus and a link with a wider one: requests and responses go
//! on as they are, and each beat of data is moved to its lanes on the other bus. (Arm IHI 0022, narrow
//! transfers.)
//!
//! A contract sees an up converter as its state between rounds, and as what it takes and puts in the
//! round. What it does in a round is its table, in `specs/UpTable`. What holds of it between other nodes
//! stands on the functions without a body, as for all kinds.
#![tactic(auto)]

mod beats;
mod passing;
mod rows;
mod shape;
mod up;
mod up_laws;

pub use passing::Passing;
pub use shape::UpShape;
pub use up::{UpNode, crosses_threads};
pub use up_laws::{laws_of_table, laws_of_trails, laws_of_ways, local_laws};
