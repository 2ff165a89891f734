//! The bursts whose beats pass through an up converter.

use axi_beats::Addr;
use flight::Filed;

/// A burst: its request, and how many of its data beats have passed (0 to 255: with its last one it
/// leaves).
#[derive(Clone, Copy, Default)]
pub struct Passing {
    /// The request.
    pub request: Addr,
    /// How many beats have passed.
    pub passed: u8,
}

impl Filed for Passing {
    ghost key_of = { λ entry. entry.request.id };

    fn key(&self) -> u32 {
        self.request.id
    }
}
