//! What all kinds of node share: whose turn it is among ports, how long an endpoint's row waits, how a
//! row takes and puts, and [`Step`], which every kind of node is.
//!
//! A *kind* of node is given by its decision table: a function of its state and of the links as they
//! stand at a round's start, which gives its takes, its puts and its next state. The words in which
//! tables are written are in `specs`. No call takes memory.
#![tactic(auto)]

mod beat;
mod core_laws;
mod id;
mod pace;
mod paces;
mod ready;
mod row;
mod step;
#[cfg(test)]
mod tests;
mod turn;

pub use beat::Beat;
pub use core_laws::laws;
pub use id::HasId;
pub use pace::Pace;
pub use paces::{EachRow, Paces};
pub use ready::mark_ready;
pub use row::{link_at, open_put, passed, set_put, set_take};
pub use step::Step;
pub use turn::Turn;
