//! The topology: the nodes of a network as a document names them, and which documents are refused.
#![tactic(auto)]

mod accepted;
mod addresses;
mod fits;
mod joined;
mod kinds;
mod kinds_of_links;
mod known;
mod link;
mod names;
mod read;
mod size;
mod uppers;
mod wiring;

pub use accepted::laws_of_accepted;
pub use known::known_documents;
pub use link::LinkKind;
pub use read::read_topology;
pub use refusals::{Cause, DocFault, Refusal};
pub use topology_text::{Kind, Span};
pub use wiring::Wiring;
