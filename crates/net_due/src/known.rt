//! A small network whose run is known.

ghost use Rattle.net_due.specs.KnownRuns.{RunIsKnown};

/// A network of two managers, two memories and a slice can be run; this is due of its three
/// transactions; a history delivers and answers them, and with a single change in it doesn't. All stand in
/// `specs/KnownRuns.antt`.
pub fn known_runs()
    ensures { RunIsKnown }
{}
