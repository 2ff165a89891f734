//! The network of a plan, and that it can be run.
//!
//! The plan of an accepted document and its traffic make a network (`net_opening`). Here it is proved
//! that this network is wired, and that each of its nodes stands between links as its kind wants them.
//! There is no code here: each function has an empty body, and its contract says a law.
#![tactic(auto)]

mod plan_laws;

pub use plan_laws::{forms_of_links, openings_are_sound, openings_are_wired};
