//! The answer of a call that found no memory.

use std::alloc::AllocError;

/// There was no memory for the call. How it left what it was given stands in its own contract.
#[derive(Clone, Copy, Debug, PartialEq, Eq, Default)]
pub struct NoMemory;

impl From<AllocError> for NoMemory {
    fn from(_error: AllocError) -> NoMemory {
        NoMemory
    }
}
