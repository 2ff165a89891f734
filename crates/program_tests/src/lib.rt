//! Tests of the top call: known documents, traces and failing devices, each with what is answered and written.
//!
//! They stand in a crate of their own, above the program, so that the program isn't proved a second time with them.
#![tactic(auto)]

#[cfg(test)]
mod device_tests;
#[cfg(test)]
mod network_tests;
#[cfg(test)]
mod plan_tests;
#[cfg(test)]
mod test_rows;
#[cfg(test)]
mod trace_tests;
#[cfg(test)]
mod traffic_tests;
