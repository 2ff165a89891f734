//! The kinds of node, each on a bench: what is offered and what is moved, worked out by hand.
//!
//! They stand here, above the kinds, so that no kind is proved a second time with its rows.

mod demux_rows;
mod error_rows;
mod lite_memory_rows;
mod lite_rows;
mod manager_rows;
mod memory_rows;
mod mux_rows;
mod remap_rows;
mod slice_rows;
mod split_rows;
mod up_rows;
