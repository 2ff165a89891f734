//! The rules of an AXI4-Lite port, and what a port of either kind breaks first. (Arm IHI 0022, AXI4-Lite.)
//!
//! All of it is definitions over the histories of `axi_history`, in `specs/`, with known traces that
//! they judge. `docs/PORT_RULES.md` lists the rules with their sections.
#![tactic(auto)]

mod known;
mod rule_laws;

pub use known::known_lite_traces;
pub use rule_laws::words_are_lite;
