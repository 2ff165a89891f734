//! What happened in a network over its rounds: the accesses of its memories, the issues and the answers
//! of its managers, and what it means that all of it is right.
//!
//! `specs/History` reads them off a network, `specs/Due` says what is due of each transaction, and
//! `specs/Right` what is right. There is no code here: each function has an empty body, and its contract
//! says a law of every network that can be run.
#![tactic(auto)]

mod history_laws;

pub use history_laws::runs_are_right;
