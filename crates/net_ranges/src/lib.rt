//! What the ports of a network show fits a trace line.
//!
//! A trace line has room for each field of a beat (`trace_text`). Here it is proved that every port of a
//! network that can be run shows only such beats: requests and write data are those of the scripts, and
//! each answer was put by a subordinate. There is no code here: each function has an empty body, and its
//! contract says a law.
#![tactic(auto)]

mod line_laws;

pub use line_laws::{plans_show_trace_lines, runs_show_trace_lines};
