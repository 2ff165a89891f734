//! Networks of nodes of any kind, as plain data: what a link is, how nodes and links are joined, what a
//! round does, where transactions go, and which networks can be run. There is no code here but the
//! record of a link; the definitions are in `specs/`.
#![tactic(auto)]

mod any_kind;
mod net_link;

pub use any_kind::AnyKind;
pub use net_link::NetLink;
