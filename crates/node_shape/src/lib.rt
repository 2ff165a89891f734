//! What a kind of node has to show, said once for all kinds.
//!
//! A kind is a record of its links, its table, and of what its state has to do with all that has passed
//! on its links (`specs/Kind`). What every kind shows stands together in `specs/KindHolds`: its table
//! moves what can be moved, on its own links; between links that ask and answer as they should it keeps
//! what holds of it, asks so below and answers so above; it holds nothing back (`specs/KindLaws`); and
//! what transactions bring to its links suits it (`specs/WayLaws`). A kind in the middle of a network
//! shows also the four laws of `specs/LocalLaws`, and an endpoint that each row of its table is done as
//! its pace lets it (`specs/Paced`). Several kinds are one (`specs/Family`). There is no code here: each
//! function has an empty body, and its contract says a law that holds of the definitions.
#![tactic(auto)]

mod shape_laws;

pub use shape_laws::laws_of_links;
