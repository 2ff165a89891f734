//! What the two ends of a link have passed, and what a network's nodes may rely on at a link.
//!
//! A *trail* is the list of beats that one end of a link has passed on each channel. Two contracts
//! speak of one trail each: what is *asked* on a link by the node above it, and what the node below
//! it *answers* (Arm IHI 0022, ordering model, relationships between the channels). Every node keeps
//! both, which is why every network does. There is no code here: the definitions are in `specs`, each
//! function has an empty body, and its contract says a law that holds of the definitions.
#![tactic(auto)]

mod contract_laws;
mod data_laws;
mod id_laws;
mod network_laws;
mod selection_laws;
mod trail_laws;
mod word_laws;

pub use contract_laws::{example_of_contracts, laws_of_contracts};
pub use data_laws::laws_of_data;
pub use id_laws::laws_of_ids;
pub use network_laws::law_of_rounds;
pub use selection_laws::laws_of_selections;
pub use trail_laws::laws_of_trails;
pub use word_laws::{laws_of_held, laws_of_marks, laws_of_pending};
