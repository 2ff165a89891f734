//! The ranges and regions of document nodes, as the kinds of node take them.

ghost use Rattle.std.specs.Prelude.{◌≡◌, ◌<◌, ◌≤◌, IfOk, length, map};
ghost use Rattle.address_map.specs.declared.region.Region.{Region};
ghost use Rattle.elaborate.specs.Path.{ported_regions};
ghost use Rattle.net_opening.specs.States.{memory_range};
ghost use Rattle.node_graph.specs.Order.{place_in};
ghost use Rattle.topology.specs.Document.{node_at};
ghost use Rattle.topology.specs.Refused.{IsAccepted};

use address_map::{AddressMap, Region};
use axi_beats::NoMemory;
use memory_node::Range;
use std::alloc::{AllocError, Global};
use topology::{Span, Wiring};

/// Ranges of addresses, as a memory takes them.
pub(crate) fn memory_ranges(alloc: Global, spans: &[Span]) -> Result<Vec<Range>, AllocError>
    ensures { IfOk result (λ ranges. ranges.items ≡ map memory_range spans.now) }
{
    let mut ranges = Vec::new(alloc);
    for span in spans {
        ranges.push(Range {
            base: span.base,
            size: span.size,
        })?;
    }
    Ok(ranges)
}

/// The map of the regions of a document node. Those of an accepted document make a map, so that only
/// memory can be wanting.
pub(crate) fn map_of(alloc: Global, wiring: &Wiring, document: u32) -> Result<AddressMap, NoMemory>
    requires accepted { IsAccepted wiring.now }
    requires known { document < length wiring.now }
    ensures { IfOk result (λ map. map ≡ ported_regions wiring.now (node_at wiring.now document)) }
{
    let regions = ported_regions(alloc, wiring, document)?;
    AddressMap::new(alloc, regions).map_err(|_fault| NoMemory)
}

// The regions of a document node, each with the port that leads to its target.
fn ported_regions(alloc: Global, wiring: &Wiring, document: u32) -> Result<Vec<Region>, AllocError>
    requires accepted { IsAccepted wiring.now }
    requires known { document < length wiring.now }
    ensures { IfOk result (λ regions. regions.items ≡ ported_regions wiring.now (node_at wiring.now document)) }
{
    with_places(alloc, wiring.targets(document), wiring.regions(document))
}

// Regions whose ports are the places of their targets among these.
fn with_places(
    alloc: Global,
    targets: &[u32],
    regions: &[Region],
) -> Result<Vec<Region>, AllocError>
    requires { length targets.now ≤ 16 }
    ensures { IfOk result (λ placed. placed.items ≡ map (λ (region : Region). record region { port = place_in targets.now region.port }) regions.now) }
{
    let mut placed = Vec::new(alloc);
    for region in regions {
        placed.push(Region {
            port: place_in(targets, region.port),
            ..*region
        })?;
    }
    Ok(placed)
}

// The place of a number in a list, or the length of the list where it isn't there.
fn place_in(list: &[u32], number: u32) -> u32
    requires { length list.now ≤ 16 }
    ensures { result ≡ place_in list.now number }
{
    for (place, other) in list.iter().enumerate() {
        if *other == number {
            return place as u32;
        }
    }
    list.len() as u32
}
