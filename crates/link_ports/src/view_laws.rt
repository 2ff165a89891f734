//! What a port's history says of the trails of its link's two ends.

ghost use Rattle.link_ports.specs.PortLaws.{TransferredAreTrails, OfferedAreTrails, WaitingAreOfferedAgain};

/// What a port has transferred, what it has offered, and what waits on it.
pub fn laws_of_views()
    ensures transferred { TransferredAreTrails }
    ensures offered { OfferedAreTrails }
    ensures waiting { WaitingAreOfferedAgain }
{}
