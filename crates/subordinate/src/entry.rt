//! The requests that a subordinate has taken and not yet answered.

use axi_beats::{Addr, Resp};
use flight::Filed;

/// A write: its request, how many of its data beats are taken (0 to 256), and the worst status among
/// them.
#[derive(Clone, Copy, Default)]
pub struct WriteEntry {
    pub request: Addr,
    pub taken: u16,
    pub worst: Resp,
}

impl Filed for WriteEntry {
    ghost key_of = { λ entry. entry.request.id };

    fn key(&self) -> u32 {
        self.request.id
    }
}

/// A read: its request, and how many of its data beats are put (0 to 255: with its last one it
/// leaves).
#[derive(Clone, Copy, Default)]
pub struct ReadEntry {
    pub request: Addr,
    pub put: u16,
}

impl Filed for ReadEntry {
    ghost key_of = { λ entry. entry.request.id };

    fn key(&self) -> u32 {
        self.request.id
    }
}
