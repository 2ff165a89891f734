//! That no network gets stuck, whatever the kinds of its nodes, and by when its run is finished.
//!
//! Where a network is wired and scheduled, some beat moves in one of a few rounds from every unfinished
//! state on, so few as the patience of its nodes tells. Each beat that a link has to carry moves twice
//! at most, so that the run ends. There is no code here: each function has an empty body, and its
//! contract says a law.
#![tactic(auto)]

mod progress_laws;

pub use progress_laws::{laws_of_transfers, never_stuck};
