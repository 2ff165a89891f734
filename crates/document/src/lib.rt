//! A document: the topology of a network, a line `%%`, and the traffic on it. [`read_document`] reads one as
//! a plan with its traffic, or answers the first cause for which it is refused. [`read_planned`] reads the topology alone, and
//! answers its plan with the bound on the rounds of the traffic.
#![tactic(auto)]

mod document;
mod laws;

pub use document::{Document, INPUT_LIMIT, Planned, input_text, read_document, read_planned};
pub use laws::{accepted_documents_are_runnable, plans_follow_documents};
