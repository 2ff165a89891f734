//! What the workers pass at each part of a phase. Today no phase is split, and nothing calls a gate.

/// Told of each part of each phase by the worker that takes it. It changes nothing that a run answers, so a test can
/// count the calls, or wait in them.
pub trait Gate: Sync {
    /// Worker number `worker`, from 0, takes up its part.
    fn enter(&self, worker: u8);
}

/// The gate that lets each worker pass at once.
#[derive(Debug, Clone, Copy, Default, PartialEq, Eq)]
pub struct OpenGate;

impl Gate for OpenGate {
    fn enter(&self, _worker: u8) {}
}
