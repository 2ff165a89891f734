//! Numbers of an accepted document that are known to be small.

ghost use Rattle.std.specs.Prelude.{◌≡◌, ◌≤◌, ◌<◌, length};
ghost use Rattle.topology.specs.Document.{node_at, targets_of, uppers_of};
ghost use Rattle.topology.specs.Refused.{IsAccepted};
ghost use Rattle.elaborate.specs.Inside.{HasFirsts};
ghost use Rattle.elaborate.specs.Plan.{first_part};

use topology::Wiring;

/// The number of the first plan node of a document node.
pub(crate) fn first_of(wiring: &Wiring, firsts: &[u32], place: u32) -> u32
    requires firsts { HasFirsts wiring.now firsts.now }
    requires inside { place < length wiring.now }
    ensures first { result ≡ first_part wiring.now place }
    ensures small { result ≤ 1024 }
{
    firsts[place as usize]
}

/// The number of nodes above a document node.
pub(crate) fn input_count(wiring: &Wiring, place: u32) -> u32
    requires accepted { IsAccepted wiring.now }
    requires inside { place < length wiring.now }
    ensures count { result ≡ length (uppers_of wiring.now place) }
    ensures few { result ≤ 16 }
{
    wiring.uppers(place).len() as u32
}

/// The number of nodes below it.
pub(crate) fn target_count(wiring: &Wiring, place: u32) -> u32
    requires accepted { IsAccepted wiring.now }
    requires inside { place < length wiring.now }
    ensures count { result ≡ length (targets_of wiring.now (node_at wiring.now place)) }
    ensures few { result ≤ 16 }
{
    wiring.targets(place).len() as u32
}
