//! The text of a topology: TOML, of which each table is read as a node of its kind, or refused.
//!
//! A key that the kind of a node doesn't have is 0 or empty, and one that may be left out has its
//! default. `specs/` has the tables' shapes, `Form` and `Shape`, and what a text is read as, `Text`.
#![tactic(auto)]

mod element;
mod form;
mod kind;
mod node;
mod read;
mod row;
mod text;
mod value;

pub use kind::{Kind, Span};
pub use node::{NamedSpan, Node};
pub use text::read_text;
