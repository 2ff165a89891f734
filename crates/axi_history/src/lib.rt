//! What a history is: what it means that a network delivered and answered, and which rules a port
//! has to keep. All of it is definitions over plain lists, in `specs/`.
//!
//! The lists of a network are the transactions with what is due of each, the accesses to bytes, the
//! rounds of issue and the answers. The list of a port is what was seen of it, round by round. None
//! of these definitions knows of a queue, a table, an entry or a cursor.
#![tactic(auto)]

mod known;
mod port;

pub use known::{known_histories, known_traces};
pub use port::{PortKind, PortRound, RawAddr, RawB, RawR, Seen};
