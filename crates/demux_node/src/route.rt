//! The requests that a demux has sent on and that aren't answered.

use flight::Filed;

/// A read: its ID, and the port by which it went, counted from 0.
#[derive(Clone, Copy, Default)]
pub struct Route {
    /// The ID.
    pub id: u32,
    /// The port.
    pub port: u8,
}

impl Filed for Route {
    ghost key_of = { λ route. route.id };

    fn key(&self) -> u32 {
        self.id
    }
}

/// A write: its ID, the port by which it went, counted from 0, and whether it lacks data.
#[derive(Clone, Copy, Default)]
pub struct WriteRoute {
    /// The ID.
    pub id: u32,
    /// The port.
    pub port: u8,
    /// Its last beat of data hasn't gone on yet.
    pub is_open: bool,
}

impl Filed for WriteRoute {
    ghost key_of = { λ write. write.id };

    fn key(&self) -> u32 {
        self.id
    }
}
