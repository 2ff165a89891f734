//! Tests of trace lines and of whole traces, each with what is read, told or written.
//!
//! They stand in a crate of their own, above what they call, so that nothing is proved a second time with them.
#![tactic(auto)]

#[cfg(test)]
mod lines;
#[cfg(test)]
mod verdicts;
