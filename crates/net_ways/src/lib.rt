//! The ways of transactions through a network, and networks that can be run.
//!
//! From the node where a transaction starts its way goes down link by link, as the kinds of the nodes
//! tell, to the node where it ends, and its responses come back from there (`specs/Ways`). That gives
//! what each link has to carry, and nothing else is asked of a network but that it is wired and that
//! what its links carry suits each node (`specs/Sound`). Of each such network all that is proved of
//! networks holds. There is no code here: each function has an empty body, and its contract says a law.
#![tactic(auto)]

mod sound_laws;

pub use sound_laws::{laws_of_progress, laws_of_runs, laws_of_ways};
