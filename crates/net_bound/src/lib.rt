//! By when the run of a plan is finished.
//!
//! Each link of a transaction's way carries it once, whole or cut into single beats, and its way has no
//! more links than its path has plan nodes. So a run is finished after as many rounds as its bound at the
//! latest (`plan_traffic`'s `round_bound`). There is no code here: each function has an empty body, and its
//! contract says a law.
#![tactic(auto)]

mod bound_laws;

pub use bound_laws::{runs_end_in_time, unfinished_before_bound};
