//! What holds of every network over its rounds, whatever the kinds of its nodes.
//!
//! A kind is any that shows what `net_model::AnyKind` asks. Where a network is wired and scheduled, after
//! every number of rounds each node keeps what its kind keeps, each link asks and answers as it should,
//! and the next round can be made. There is no code here: each function has an empty body, and its
//! contract says a law.
#![tactic(auto)]

mod run_laws;

pub use run_laws::{law_of_links, law_of_ports, laws_of_contracts};
