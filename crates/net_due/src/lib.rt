//! What a plan and its traffic say of each transaction is what its network has due.
//!
//! `plan_traffic` says by document and traffic where a transaction ends, and which bytes and responses are
//! due of it. `net_history` says the same of any network, by the ways of its transactions. Here it is proved
//! that both agree, so that what holds of runs of networks is said of documents. There is no code here: each
//! function has an empty body, and its contract says a law.
#![tactic(auto)]

mod due_laws;
mod known;

pub use due_laws::{plan_runs_are_right, transactions_are_due};
pub use known::known_runs;
