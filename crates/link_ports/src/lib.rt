//! What is seen of the port that a link is, and why it breaks none of the rules of its kind.
//!
//! A link has a node above it and a node below it. Where the one asks and the other answers as the
//! contracts of a link in `axi_trail` say, the history of the link's port breaks none of the rules
//! that `docs/PORT_RULES.md` lists for its kind, AXI4 or AXI4-Lite. The functions with an empty body have the laws of this as their
//! contracts, and [`port_of`] shows the port in one round.
#![tactic(auto)]

mod channel_laws;
mod port_laws;
mod port_view;
mod view_laws;

pub use channel_laws::laws_of_channels;
pub use port_laws::{example_of_ports, laws_of_ports};
pub use port_view::port_of;
pub use view_laws::laws_of_views;
