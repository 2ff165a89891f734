//! How large a network may be.

ghost use Rattle.std.specs.Prelude.{◌≡◌, ◌+◌, ◌<◌, ◌≤◌, ◌^◌, ◌||◌, IfNone, IfSome, false, length, nat_lt, true};
ghost use Rattle.topology.specs.Document.{graph_of, node_at, plan_links_at, plan_links_of, plan_nodes_at, plan_nodes_of, targets_of, uppers_of};
ghost use Rattle.topology.specs.Read.{first_with};
ghost use Rattle.topology.specs.Refused as cause;
ghost use Rattle.topology.specs.Sizes.{IsSizeOf};

use crate::kinds::node_at;
use node_graph::NodeGraph;
use topology_text::{Kind, Node};

// What the first nodes become: nodes and links of the plan.
#[derive(Debug, Clone, Copy)]
pub(crate) struct PlanSize {
    pub nodes: u32,
    pub links: u32,
}

/// The first node with which the network is too large.
pub(crate) fn first_too_large(nodes: &[Node], graph: &NodeGraph) -> Option<u32>
    requires joined { graph.now ≡ graph_of nodes.now }
    requires long { length graph.now ≡ length nodes.now }
    requires few { length nodes.now < 2 ^ 32 }
    ensures { result ≡ first_with cause.is_too_large nodes.now }
{
    let mut size = PlanSize { nodes: 0, links: 0 };
    for place in 0..nodes.len() as u32 {
        match grown(nodes, graph, place, size) {
            Some(next) => size = next,
            None => return Some(place),
        }
    }
    None
}

// The size with this node, unless it is too large.
fn grown(nodes: &[Node], graph: &NodeGraph, place: u32, size: PlanSize) -> Option<PlanSize>
    requires joined { graph.now ≡ graph_of nodes.now }
    requires long { length graph.now ≡ length nodes.now }
    requires inside { place < length nodes.now }
    requires size { IsSizeOf nodes.now place size }
    ensures small { IfSome result (λ next. cause.is_too_large nodes.now place ≡ false) }
    ensures next { IfSome result (λ next. IsSizeOf nodes.now (place + 1) next) }
    ensures large { IfNone result (cause.is_too_large nodes.now place ≡ true) }
{
    if has_too_many(nodes, graph, place) {
        return None;
    }
    let next = PlanSize {
        nodes: size.nodes + plan_nodes_at(nodes, graph, place),
        links: size.links + plan_links_at(nodes, graph, place),
    };
    if is_past(&next) { None } else { Some(next) }
}

// Whether a plan of this size is too large.
fn is_past(size: &PlanSize) -> bool
    ensures { result ≡ (nat_lt 1024 size.now.nodes || nat_lt 4096 size.now.links) }
{
    size.nodes > 1024 || size.links > 4096
}

// Whether a node is the 257th, or has too many of something.
fn has_too_many(nodes: &[Node], graph: &NodeGraph, place: u32) -> bool
    requires joined { graph.now ≡ graph_of nodes.now }
    requires long { length graph.now ≡ length nodes.now }
    requires inside { place < length nodes.now }
    ensures { result ≡ cause.has_too_many nodes.now place }
{
    let node = node_at(nodes, place);
    place == 256
        || inputs_of(nodes, graph, place) > 16
        || targets_of(nodes, graph, place) > 16
        || node.region().len() > 64
        || node.read_only().len() > 64
        || node.hole().len() > 64
}

// How many nodes are above a node.
fn inputs_of(nodes: &[Node], graph: &NodeGraph, place: u32) -> usize
    requires joined { graph.now ≡ graph_of nodes.now }
    requires long { length graph.now ≡ length nodes.now }
    requires inside { place < length nodes.now }
    ensures { result ≡ length (uppers_of nodes.now place) }
{
    graph.above(place).len()
}

// How many nodes are below a node.
fn targets_of(nodes: &[Node], graph: &NodeGraph, place: u32) -> usize
    requires joined { graph.now ≡ graph_of nodes.now }
    requires long { length graph.now ≡ length nodes.now }
    requires inside { place < length nodes.now }
    ensures { result ≡ length (targets_of nodes.now (node_at nodes.now place)) }
{
    graph.below(place).len()
}

// How many nodes of the plan a node becomes.
fn plan_nodes_at(nodes: &[Node], graph: &NodeGraph, place: u32) -> u32
    requires joined { graph.now ≡ graph_of nodes.now }
    requires long { length graph.now ≡ length nodes.now }
    requires inside { place < length nodes.now }
    requires few { cause.has_too_many nodes.now place ≡ false }
    ensures nodes { result ≡ plan_nodes_at nodes.now place }
    ensures few { result ≤ 48 }
{
    let inputs = inputs_of(nodes, graph, place) as u32;
    let targets = targets_of(nodes, graph, place) as u32;
    plan_nodes_of(node_at(nodes, place).kind(), inputs, targets)
}

// And how many links these have below them.
fn plan_links_at(nodes: &[Node], graph: &NodeGraph, place: u32) -> u32
    requires joined { graph.now ≡ graph_of nodes.now }
    requires long { length graph.now ≡ length nodes.now }
    requires inside { place < length nodes.now }
    requires few { cause.has_too_many nodes.now place ≡ false }
    ensures links { result ≡ plan_links_at nodes.now place }
    ensures few { result ≤ 288 }
{
    let inputs = inputs_of(nodes, graph, place) as u32;
    let targets = targets_of(nodes, graph, place) as u32;
    plan_links_of(node_at(nodes, place).kind(), inputs, targets)
}

// How many nodes of the plan a node of this kind becomes.
fn plan_nodes_of(kind: Kind, inputs: u32, targets: u32) -> u32
    requires inputs { inputs ≤ 16 }
    requires targets { targets ≤ 16 }
    ensures nodes { result ≡ plan_nodes_of kind inputs targets }
    ensures few { result ≤ 48 }
{
    match kind {
        Kind::Demux | Kind::Down | Kind::Lite => 2,
        Kind::Crossbar => 2 * inputs + targets,
        Kind::Manager
        | Kind::Memory
        | Kind::LiteMemory
        | Kind::Slice
        | Kind::Mux
        | Kind::Remap
        | Kind::Up => 1,
    }
}

// And how many links these have below them.
fn plan_links_of(kind: Kind, inputs: u32, targets: u32) -> u32
    requires inputs { inputs ≤ 16 }
    requires targets { targets ≤ 16 }
    ensures links { result ≡ plan_links_of kind inputs targets }
    ensures few { result ≤ 288 }
{
    match kind {
        Kind::Memory | Kind::LiteMemory => 0,
        Kind::Demux => targets + 1,
        Kind::Down | Kind::Lite => 2,
        Kind::Crossbar => inputs * (targets + 1) + targets,
        Kind::Manager | Kind::Slice | Kind::Mux | Kind::Remap | Kind::Up => 1,
    }
}
