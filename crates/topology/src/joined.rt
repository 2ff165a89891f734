//! The regions of nodes, and the nodes below them.

ghost use Rattle.std.specs.Prelude.{◌≡◌, ◌<◌, ◌^◌, ◌∷◌, [], IfOk, None, OnOk, filter_map, length, map, nat_eq};
ghost use Rattle.indexmap.specs.IndexSet.{insert_key};
ghost use Rattle.node_graph.specs.Graph.{each_once};
ghost use Rattle.node_graph.specs.Simple.{lists_in};
ghost use Rattle.topology.specs.Document.{graph_of, node_at, targets_of};
ghost use Rattle.topology.specs.Joined.{name_place, node_names, placed_region, texts};
ghost use Rattle.topology.specs.Read.{first_with};
ghost use Rattle.topology.specs.Refused as cause;
ghost use Rattle.topology.specs.Wiring.{region_lists, regions_of};
ghost use Rattle.address_map.specs.declared.region.Region.{Region};

use crate::kinds::{has_regions, is_memory, node_at};
use crate::names::named;
use address_map::Region;
use indexmap::IndexSet;
use std::alloc::{AllocError, Global};
use topology_text::{NamedSpan, Node};

/// The regions of each node, with their targets as their ports.
///
/// # Errors
///
/// There was no memory for them.
pub(crate) fn regions_of_nodes(
    alloc: Global,
    nodes: &[Node],
    names: &IndexSet<&str>,
) -> Result<Vec<Vec<Region>>, AllocError>
    requires few { length nodes.now < 2 ^ 32 }
    requires names { texts names.now.keys ≡ node_names nodes.now }
    ensures { IfOk result (λ regions. region_lists regions.items ≡ map (regions_of nodes.now) nodes.now) }
{
    let mut regions = Vec::new(alloc);
    for place in 0..nodes.len() as u32 {
        regions.push(regions_of(alloc, node_at(nodes, place), names)?)?;
    }
    Ok(regions)
}

// The regions of a node.
fn regions_of(alloc: Global, node: &Node, names: &IndexSet<&str>) -> Result<Vec<Region>, AllocError>
    requires few { length names.now.keys < 2 ^ 32 }
    ensures { IfOk result (λ regions. regions.items ≡ map (placed_region (name_place names.now.keys)) node.now.region) }
{
    let mut regions = Vec::new(alloc);
    for region in node.region() {
        regions.push(placed_region(region, names))?;
    }
    Ok(regions)
}

// A region with its target as its port.
fn placed_region(region: &NamedSpan, names: &IndexSet<&str>) -> Region
    requires few { length names.now.keys < 2 ^ 32 }
    ensures { result ≡ placed_region (name_place names.now.keys) region.now }
{
    Region {
        base: region.base(),
        size: region.size(),
        port: named(names, region.to()).unwrap_or(0),
    }
}

/// The nodes below each node, each once, in the order in which it names them. Each name is that of a
/// node.
///
/// # Errors
///
/// There was no memory for them.
pub(crate) fn targets_of_nodes(
    alloc: Global,
    nodes: &[Node],
    names: &IndexSet<&str>,
    regions: &[Vec<Region>],
) -> Result<Vec<Vec<u32>>, AllocError>
    requires few { length nodes.now < 2 ^ 32 }
    requires names { texts names.now.keys ≡ node_names nodes.now }
    requires known { first_with cause.names_unknown nodes.now ≡ None }
    requires regions { region_lists regions.now ≡ map (regions_of nodes.now) nodes.now }
    ensures { IfOk result (λ below. lists_in below.items ≡ graph_of nodes.now) }
{
    let mut below = Vec::new(alloc);
    for place in 0..nodes.len() as u32 {
        below.push(targets_at(alloc, nodes, place, names, regions)?)?;
    }
    Ok(below)
}

// The nodes below the node of this number.
fn targets_at(
    alloc: Global,
    nodes: &[Node],
    place: u32,
    names: &IndexSet<&str>,
    regions: &[Vec<Region>],
) -> Result<Vec<u32>, AllocError>
    requires few { length nodes.now < 2 ^ 32 }
    requires inside { place < length nodes.now }
    requires names { texts names.now.keys ≡ node_names nodes.now }
    requires known { first_with cause.names_unknown nodes.now ≡ None }
    requires regions { region_lists regions.now ≡ map (regions_of nodes.now) nodes.now }
    ensures { IfOk result (λ below. below.items ≡ targets_of nodes.now (node_at nodes.now place)) }
{
    let node = node_at(nodes, place);
    if has_regions(node.kind()) {
        return ports_of(alloc, &regions[place as usize]);
    }
    if is_memory(node.kind()) {
        return Ok(Vec::new(alloc));
    }
    target_of(alloc, node, names)
}

// The node that a node without regions names.
fn target_of(alloc: Global, node: &Node, names: &IndexSet<&str>) -> Result<Vec<u32>, AllocError>
    requires few { length names.now.keys < 2 ^ 32 }
    ensures { IfOk result (λ below. below.items ≡ each_once (filter_map (name_place names.now.keys) (node.now.to ∷ []))) }
{
    match named(names, node.to()) {
        Some(target) => Vec::from_slice(alloc, &[target]),
        None => Ok(Vec::new(alloc)),
    }
}

// The ports of regions, each once, in the order in which they are first seen.
fn ports_of(alloc: Global, regions: &[Region]) -> Result<Vec<u32>, AllocError>
    ensures { IfOk result (λ ports. ports.items ≡ each_once (map (λ (region : Region). region.port) regions.now)) }
{
    let mut ports = IndexSet::new(alloc);
    for region in regions {
        add_port(&mut ports, region.port)?;
    }
    Vec::from_slice(alloc, ports.as_slice())
}

// Puts a port behind the others, where it isn't among them.
fn add_port(ports: &mut IndexSet<u32>, port: u32) -> Result<(), AllocError>
    ensures { OnOk result (ports.new.keys ≡ insert_key nat_eq ports.old.keys port) }
{
    match ports.insert(port) {
        Ok(_) => Ok(()),
        Err(_) => Err(AllocError),
    }
}
