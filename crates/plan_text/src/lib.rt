//! The text of a plan: a line for each plan node, a line for each link, and the bound on the rounds of its run.
//!
//! A node's line is `node <number> <part> <name>`, a link's is `link <number> <upper> <lower> <protocol> <bus> <ID width>
//! <depth>`, as in `link 0 0 1 axi 4 4 2`, and the last one is `bound <rounds>`, or `bound -` where there is no bound. Each
//! call writes one line, and takes no memory.
#![tactic(auto)]

mod known;
mod lines;
mod names;

pub use known::known_plan_texts;
pub use lines::{render_bound, render_link, render_node};
