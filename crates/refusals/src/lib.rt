//! Why an input is refused: the one list of causes, with their codes and names, and what a refusal says.
//!
//! The crates that read a document or a trace find causes, and the program writes a refusal as one line.
#![tactic(auto)]

mod cause;
mod refusal;

pub use cause::Cause;
pub use refusal::{DocFault, Refusal, codes_tell_causes};
