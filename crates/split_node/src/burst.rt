//! The bursts that a splitter cuts.

use axi_beats::{Addr, Resp};
use flight::Filed;

/// A burst of which some parts, but not all, have gone on.
#[derive(Clone, Copy)]
pub struct InWork {
    /// Its request.
    pub request: Addr,
    /// The beat whose part goes on next, counted from 0.
    pub next: u8,
}

/// A burst that isn't wholly answered.
#[derive(Clone, Copy, Default)]
pub struct SplitEntry {
    /// The ID.
    pub id: u32,
    /// How many answers to its parts are missing, 1 to 256.
    pub missing: u16,
    /// The worst of the responses that came. It stays OKAY for a read, each beat of which keeps its own
    /// response.
    pub worst: Resp,
}

impl Filed for SplitEntry {
    ghost key_of = { λ entry. entry.id };

    fn key(&self) -> u32 {
        self.id
    }
}
