//! The plan of a network: what each node of a document becomes, how these parts are linked, and which
//! way an address takes over them.
#![tactic(auto)]

pub use kinds::unbuilt;
pub use known::known_plans;
pub use link::PlanLink;
pub use link_laws::laws_of_links;
pub use part::Part;
pub use path_laws::{laws_of_order, laws_of_paths};
pub use plan::{Plan, plan_of};
pub use plan_laws::laws;

mod counts;
mod crossbar;
mod entrances;
mod firsts;
mod kinds;
mod known;
mod link;
mod link_laws;
mod links;
mod names;
mod node;
mod order;
mod part;
mod parts;
mod path_laws;
mod plan;
mod plan_laws;
mod regions;
