//! What the top call sees of the world: where bytes come from, where they go, and the gate of the workers.

mod call_faults;
pub mod gate;
pub mod memory_sink;
pub mod memory_source;
pub mod read_all;
pub mod sink;
pub mod source;
pub mod standard;
pub mod sure;
#[cfg(test)]
mod tests;
pub mod write_all;
