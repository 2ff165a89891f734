//! The checker of an AXI4 or AXI4-Lite port: it is given the rounds of a port one by one, and tells the
//! first rule that they break.
//!
//! The rules are numbered from 1 to 12 on AXI4, and from 1 to 6 on AXI4-Lite. They are definitions over
//! whole histories in `axi_history` and `lite_rules`, and `docs/PORT_RULES.md` lists them with their
//! sections of Arm IHI 0022. The checker keeps what is outstanding alone: the beats that wait, data
//! without address, addresses without data, and requests without answer.
#![tactic(auto)]

pub use rule_laws::laws;
pub use state::{PortChecker, RuleFault};

mod address;
mod bursts;
mod checker;
mod lite;
mod offer;
mod outstanding;
mod payload;
mod reads;
mod rule_laws;
mod state;
#[cfg(test)]
mod tests;
mod writes;
