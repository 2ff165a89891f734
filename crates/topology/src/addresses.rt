//! The addresses that nodes serve: regions, memories, and ranges in these.

ghost use Rattle.std.specs.Prelude.{◌≡◌, ◌<◌, ◌^◌, IfOk, None, false, length, map, not};
ghost use Rattle.std.specs.List.{list_any};
ghost use Rattle.address_map.specs.Regions.{has_overlap, is_bad_region, is_bad_span};
ghost use Rattle.topology.specs.Document.{NamedRegion};
ghost use Rattle.topology.specs.Read.{first_with};
ghost use Rattle.topology.specs.Refused as cause;
ghost use Rattle.topology.specs.Wiring.{region_lists, regions_of};

use crate::kinds::{is_memory, node_at};
use address_map::{Region, are_apart};
use std::alloc::{AllocError, Global};
use topology_text::{NamedSpan, Node, Span};

/// The first node that has a bad region, is a memory of a bad span, or has a bad range in it.
pub(crate) fn first_bad_region(nodes: &[Node]) -> Option<u32>
    requires few { length nodes.now < 2 ^ 32 }
    ensures { result ≡ first_with cause.has_bad_region nodes.now }
{
    for place in 0..nodes.len() as u32 {
        if has_bad_region(nodes, place) {
            return Some(place);
        }
    }
    None
}

// Whether a region, the node's own span of addresses, or a range in it is bad.
fn has_bad_region(nodes: &[Node], place: u32) -> bool
    requires inside { place < length nodes.now }
    ensures { result ≡ cause.has_bad_region nodes.now place }
{
    let node = node_at(nodes, place);
    has_bad_span(node.region())
        || is_memory(node.kind()) && is_bad_span(node.base(), node.size())
        || has_bad_range(node.base(), node.size(), node.read_only())
        || has_bad_range(node.base(), node.size(), node.hole())
}

// Whether one of these regions is bad.
fn has_bad_span(regions: &[NamedSpan]) -> bool
    ensures { result ≡ list_any (λ (region : NamedRegion). is_bad_span region.base region.size) regions.now }
{
    regions
        .iter()
        .any(|region| is_bad_span(region.base(), region.size()))
}

// Whether a span of addresses is bad, as a region is.
fn is_bad_span(base: u64, size: u64) -> bool
    ensures { result ≡ is_bad_span base size }
{
    let region = Region {
        base,
        size,
        port: 0,
    };
    region.is_bad()
}

// Whether one of these ranges of a memory is bad.
fn has_bad_range(base: u64, size: u64, ranges: &[Span]) -> bool
    ensures { result ≡ list_any (cause.is_bad_range base size) ranges.now }
{
    ranges.iter().any(|range| is_bad_range(base, size, range))
}

// Whether a range has no address, isn't made of whole lines of 128 bytes, or isn't inside a memory of
// `size` bytes from `base` on.
fn is_bad_range(base: u64, size: u64, range: &Span) -> bool
    ensures { result ≡ cause.is_bad_range base size range.now }
{
    range.size == 0
        || range.base % 128 != 0
        || range.size % 128 != 0
        || range.base < base
        || base as u128 + (size as u128) < range.base as u128 + range.size as u128
}

/// The first node of whose regions two share an address. No region is bad.
pub(crate) fn first_overlap(
    alloc: Global,
    nodes: &[Node],
    regions: &[Vec<Region>],
) -> Result<Option<u32>, AllocError>
    requires few { length nodes.now < 2 ^ 32 }
    requires regions { region_lists regions.now ≡ map (regions_of nodes.now) nodes.now }
    requires good { first_with cause.has_bad_region nodes.now ≡ None }
    ensures { IfOk result (λ found. found ≡ first_with cause.regions_overlap nodes.now) }
{
    for place in 0..nodes.len() as u32 {
        if !has_apart(alloc, nodes, regions, place)? {
            return Ok(Some(place));
        }
    }
    Ok(None)
}

// Whether no two regions of a node share an address.
fn has_apart(
    alloc: Global,
    nodes: &[Node],
    regions: &[Vec<Region>],
    place: u32,
) -> Result<bool, AllocError>
    requires inside { place < length nodes.now }
    requires regions { region_lists regions.now ≡ map (regions_of nodes.now) nodes.now }
    requires good { first_with cause.has_bad_region nodes.now ≡ None }
    ensures { IfOk result (λ apart. apart ≡ not (cause.regions_overlap nodes.now place)) }
{
    are_apart(alloc, regions_at(nodes, regions, place))
}

// The regions of a node.
fn regions_at<'a>(nodes: &[Node], regions: &'a [Vec<Region>], place: u32) -> &'a [Region]
    requires inside { place < length nodes.now }
    requires regions { region_lists regions.now ≡ map (regions_of nodes.now) nodes.now }
    requires good { first_with cause.has_bad_region nodes.now ≡ None }
    ensures overlap { has_overlap result.now ≡ cause.regions_overlap nodes.now place }
    ensures good { list_any is_bad_region result.now ≡ false }
{
    &regions[place as usize]
}
