//! A manager above one link: it issues the transactions of its script, sends the data of its writes,
//! and notes the answers. (Arm IHI 0022, basic read and write transactions, transaction ordering.)
//!
//! A contract sees a [`Script`] as the list of its transactions with their bytes, and a [`ManagerNode`]
//! as its state and what it takes and puts in the round. What it does in a round is its table, in
//! `specs/ManagerTable`. What holds of it above any node stands on the functions without a body: on
//! [`laws_of_table`] what its table does on any links, on [`laws_of_rows`] that a row waits no longer
//! than its pace, on [`laws_of_ways`] that the transactions of its script start there, on
//! [`laws_of_trails`] that it asks as it should and holds nothing back, and on [`laws_of_notes`] what
//! its answers are.
#![tactic(auto)]

mod answer;
mod answers;
mod beats;
mod direction;
mod entry;
mod manager;
mod manager_laws;
mod script;
mod sending;

pub use answer::Answer;
pub use entry::Entry;
pub use manager::{ManagerNode, crosses_threads};
pub use manager_laws::{
    laws_of_bursts, laws_of_notes, laws_of_rows, laws_of_table, laws_of_trails, laws_of_ways,
};
pub use script::{Script, Txn, WriteByte};
