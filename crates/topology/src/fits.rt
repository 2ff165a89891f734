//! Whether the links above a node fit it.

ghost use Rattle.std.specs.Prelude.{◌≡◌, ◌==◌, ◌<◌, ◌^◌, length, map, not};
ghost use Rattle.std.specs.List.{list_any};
ghost use Rattle.topology.specs.Document.{LinkKind, graph_of};
ghost use Rattle.topology.specs.Fits as fit;
ghost use Rattle.topology.specs.Links.{AreLinks, known_link};
ghost use Rattle.topology.specs.Read.{first_with};
ghost use Rattle.topology.specs.Refused as cause;

use crate::kinds::{joins_links, node_at};
use crate::kinds_of_links::{first_link, link_of};
use crate::link::LinkKind;
use node_graph::NodeGraph;
use topology_text::{Kind, Node};

/// The first node whose bus doesn't fit the links above it.
pub(crate) fn first_width_mismatch(
    nodes: &[Node],
    graph: &NodeGraph,
    links: &[LinkKind],
) -> Option<u32>
    requires joined { graph.now ≡ graph_of nodes.now }
    requires long { length graph.now ≡ length nodes.now }
    requires few { length nodes.now < 2 ^ 32 }
    requires links { AreLinks nodes.now links.now }
    ensures { result ≡ first_with cause.has_width_mismatch nodes.now }
{
    for place in 0..nodes.len() as u32 {
        if has_width_mismatch(nodes, graph, links, place) {
            return Some(place);
        }
    }
    None
}

// Whether a node's bus doesn't fit the links above it.
fn has_width_mismatch(nodes: &[Node], graph: &NodeGraph, links: &[LinkKind], place: u32) -> bool
    requires joined { graph.now ≡ graph_of nodes.now }
    requires long { length graph.now ≡ length nodes.now }
    requires inside { place < length nodes.now }
    requires links { AreLinks nodes.now links.now }
    ensures { result ≡ cause.has_width_mismatch nodes.now place }
{
    bus_differs(node_at(nodes, place), graph.above(place), links)
}

// Whether a node's inputs have buses that differ, its bus isn't its input's, or it widens or narrows
// none.
fn bus_differs(node: &Node, uppers: &[u32], links: &[LinkKind]) -> bool
    ensures { result ≡ fit.bus_differs_at node.now (map (known_link links.now) uppers.now) node.now.kind }
{
    let bus = first_link(uppers, links).bus;
    match node.kind() {
        Kind::Mux | Kind::Crossbar => is_other_bus(bus, uppers, links),
        Kind::Memory => node.bus() != bus,
        Kind::Up => node.bus() <= bus,
        Kind::Down => bus <= node.bus(),
        Kind::Manager | Kind::LiteMemory | Kind::Slice | Kind::Demux | Kind::Remap | Kind::Lite =>
            false,
    }
}

// Whether one of these links has another bus.
fn is_other_bus(bus: u8, uppers: &[u32], links: &[LinkKind]) -> bool
    ensures { result ≡ list_any (λ (other : LinkKind). not (other.bus == bus)) (map (known_link links.now) uppers.now) }
{
    has_other_bus(bus, uppers, links)
}

// Whether the link of one of these numbers has another bus.
fn has_other_bus(bus: u8, uppers: &[u32], links: &[LinkKind]) -> bool
    ensures { result ≡ list_any (λ upper. not ((known_link links.now upper).bus == bus)) uppers.now }
{
    uppers.iter().any(|upper| link_of(*upper, links).bus != bus)
}

/// The first node that joins links and has IDs of over 16 bits below it.
pub(crate) fn first_id_overflow(nodes: &[Node], links: &[LinkKind]) -> Option<u32>
    requires few { length nodes.now < 2 ^ 32 }
    requires links { AreLinks nodes.now links.now }
    ensures { result ≡ first_with cause.has_id_overflow nodes.now }
{
    for place in 0..nodes.len() as u32 {
        if has_id_overflow(nodes, links, place) {
            return Some(place);
        }
    }
    None
}

// Whether a node joins links and has IDs of over 16 bits below it.
fn has_id_overflow(nodes: &[Node], links: &[LinkKind], place: u32) -> bool
    requires inside { place < length nodes.now }
    requires links { AreLinks nodes.now links.now }
    ensures { result ≡ cause.has_id_overflow nodes.now place }
{
    joins_links(node_at(nodes, place).kind()) && link_of(place, links).id_width > 16
}

/// The first node that AXI4 and AXI4-Lite meet at, where it doesn't lead from one to the other as it
/// should.
pub(crate) fn first_lite_mismatch(
    nodes: &[Node],
    graph: &NodeGraph,
    links: &[LinkKind],
) -> Option<u32>
    requires joined { graph.now ≡ graph_of nodes.now }
    requires long { length graph.now ≡ length nodes.now }
    requires few { length nodes.now < 2 ^ 32 }
    requires links { AreLinks nodes.now links.now }
    ensures { result ≡ first_with cause.has_lite_mismatch nodes.now }
{
    for place in 0..nodes.len() as u32 {
        if has_lite_mismatch(nodes, graph, links, place) {
            return Some(place);
        }
    }
    None
}

// Whether AXI4 and AXI4-Lite meet at a node that doesn't lead from one to the other as it should.
fn has_lite_mismatch(nodes: &[Node], graph: &NodeGraph, links: &[LinkKind], place: u32) -> bool
    requires joined { graph.now ≡ graph_of nodes.now }
    requires long { length graph.now ≡ length nodes.now }
    requires inside { place < length nodes.now }
    requires links { AreLinks nodes.now links.now }
    ensures { result ≡ cause.has_lite_mismatch nodes.now place }
{
    protocol_differs(node_at(nodes, place).kind(), graph.above(place), links)
}

// Whether a node of this kind speaks another protocol than the links above it, or leads to AXI4-Lite
// from a bus that AXI4-Lite doesn't have.
fn protocol_differs(kind: Kind, uppers: &[u32], links: &[LinkKind]) -> bool
    ensures { result ≡ fit.protocol_differs_at (map (known_link links.now) uppers.now) kind }
{
    let input = first_link(uppers, links);
    match kind {
        Kind::Lite => is_any_lite(uppers, links) || !(input.bus == 4 || input.bus == 8),
        Kind::LiteMemory => !input.lite,
        Kind::Slice => false,
        Kind::Manager
        | Kind::Memory
        | Kind::Mux
        | Kind::Demux
        | Kind::Crossbar
        | Kind::Remap
        | Kind::Up
        | Kind::Down => is_any_lite(uppers, links),
    }
}

// Whether one of these links is AXI4-Lite.
fn is_any_lite(uppers: &[u32], links: &[LinkKind]) -> bool
    ensures { result ≡ list_any (λ (other : LinkKind). other.lite) (map (known_link links.now) uppers.now) }
{
    has_lite(uppers, links)
}

// Whether the link of one of these numbers is AXI4-Lite.
fn has_lite(uppers: &[u32], links: &[LinkKind]) -> bool
    ensures { result ≡ list_any (λ upper. (known_link links.now upper).lite) uppers.now }
{
    uppers.iter().any(|upper| link_of(*upper, links).lite)
}
