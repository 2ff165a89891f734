//! The ports of a demux by address.

ghost use Rattle.std.specs.Prelude.{◌≡◌, ◌≤◌, ◌<◌, length};
ghost use Rattle.address_map.specs.Regions.{serving_port};
ghost use Rattle.topology.specs.Document.{node_at};
ghost use Rattle.topology.specs.Refused.{IsAccepted};
ghost use Rattle.elaborate.specs.Path.{port_at_demux};

use crate::counts::target_count;
use crate::entrances::place_in;
use address_map::Region;
use topology::Wiring;

/// The port of an address at a demux of a document node: that of the region that has it, else the last
/// one.
pub(crate) fn port_at_demux(wiring: &Wiring, document: u32, addr: u64) -> u32
    requires accepted { IsAccepted wiring.now }
    requires inside { document < length wiring.now }
    ensures { result ≡ port_at_demux wiring.now (node_at wiring.now document) addr }
{
    let targets = wiring.targets(document);
    match serving_port(wiring.regions(document), addr) {
        Some(target) => place_in(targets, target),
        None => target_count(wiring, document),
    }
}

// The port of the region that has an address.
#[tactic(auto, using(address_map::proofs::RegionLemmas::found_from))]
fn serving_port(regions: &[Region], addr: u64) -> Option<u32>
    ensures { result ≡ serving_port regions.now addr }
{
    for region in regions {
        if region.holds(addr) {
            return Some(region.port);
        }
    }
    None
}
