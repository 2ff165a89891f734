//! Words on plain lists, for every crate that speaks of beats, entries or rounds.
//!
//! There is no code here: the definitions are in `specs`, and each function has an empty body, whose
//! contract says laws that hold of the definitions.
#![tactic(auto)]

mod laws;

pub use laws::{laws_of_beginnings, laws_of_keys};
