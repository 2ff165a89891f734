//! How many nodes may stand above a node, and how many have to.

ghost use Rattle.std.specs.Prelude.{◌≡◌, ◌<◌, ◌^◌, if◌then◌else◌, length};
ghost use Rattle.topology.specs.Document.{graph_of, is_manager};
ghost use Rattle.topology.specs.Read.{first_with};
ghost use Rattle.topology.specs.Refused as cause;

use crate::kinds::{is_manager, joins_links, node_at};
use node_graph::NodeGraph;
use topology_text::{Kind, Node};

/// The first node that has more nodes above it than its kind may have.
pub(crate) fn first_fan_in(nodes: &[Node], graph: &NodeGraph) -> Option<u32>
    requires joined { graph.now ≡ graph_of nodes.now }
    requires long { length graph.now ≡ length nodes.now }
    requires few { length nodes.now < 2 ^ 32 }
    ensures { result ≡ first_with cause.has_fan_in nodes.now }
{
    for place in 0..nodes.len() as u32 {
        if has_fan_in(nodes, graph, place) {
            return Some(place);
        }
    }
    None
}

// Whether a node has more nodes above it than its kind may have.
fn has_fan_in(nodes: &[Node], graph: &NodeGraph, place: u32) -> bool
    requires joined { graph.now ≡ graph_of nodes.now }
    requires long { length graph.now ≡ length nodes.now }
    requires inside { place < length nodes.now }
    ensures { result ≡ cause.has_fan_in nodes.now place }
{
    let kind = node_at(nodes, place).kind();
    !joins_links(kind) && graph.above(place).len() > most_uppers(kind)
}

// How many nodes may stand above one of a kind that doesn't join links.
fn most_uppers(kind: Kind) -> usize
    ensures { result ≡ (if is_manager kind then 0 else 1) }
{
    if is_manager(kind) { 0 } else { 1 }
}

/// The first node that is no manager and has none above it.
pub(crate) fn first_loose(nodes: &[Node], graph: &NodeGraph) -> Option<u32>
    requires joined { graph.now ≡ graph_of nodes.now }
    requires long { length graph.now ≡ length nodes.now }
    requires few { length nodes.now < 2 ^ 32 }
    ensures { result ≡ first_with cause.is_loose nodes.now }
{
    for place in 0..nodes.len() as u32 {
        if is_loose(nodes, graph, place) {
            return Some(place);
        }
    }
    None
}

// Whether a node is no manager and has none above it.
fn is_loose(nodes: &[Node], graph: &NodeGraph, place: u32) -> bool
    requires joined { graph.now ≡ graph_of nodes.now }
    requires long { length graph.now ≡ length nodes.now }
    requires inside { place < length nodes.now }
    ensures { result ≡ cause.is_loose nodes.now place }
{
    !is_manager(node_at(nodes, place).kind()) && graph.above(place).is_empty()
}
