//! The topology of a text, or why it is refused.

ghost use Rattle.std.specs.Prelude.{◌≡◌, ◌+◌, ◌-◌, ◌<◌, ◌^◌, IfErr, IfNone, IfOk, IfSome, Ok, length, map, min};
ghost use Rattle.node_graph.specs.Laws.{IsAcyclic};
ghost use Rattle.refusals.specs.Refusal.{refused_at};
ghost use Rattle.refusals.specs.declared.refusal.DocFault.TheVariants.{Refused};
ghost use Rattle.topology.specs.Document.{graph_of};
ghost use Rattle.topology.specs.Joined.{node_names, texts};
ghost use Rattle.topology.specs.Links.{AreLinks};
ghost use Rattle.topology.specs.Read.{IsPast, IsTopologyFault, accepted_nodes, topology_of};
ghost use Rattle.topology.specs.Wiring.{region_lists, regions_of};
ghost use Rattle.topology_text.specs.Formed.{AreFormed};

use crate::addresses::{first_bad_region, first_overlap};
use crate::fits::{first_id_overflow, first_lite_mismatch, first_width_mismatch};
use crate::joined::{regions_of_nodes, targets_of_nodes};
use crate::kinds_of_links::kinds_of_links;
use crate::link::LinkKind;
use crate::names::{first_unknown, names_of};
use crate::size::first_too_large;
use crate::uppers::{first_fan_in, first_loose};
use crate::wiring::Wiring;
use address_map::Region;
use indexmap::IndexSet;
use node_graph::NodeGraph;
use refusals::{Cause, DocFault, Refusal};
use std::alloc::Global;
use topology_text::{Node, read_text};

/// The topology that a text tells, with the default of each key that is left out.
///
/// # Errors
///
/// Code 4 where the text isn't TOML, else code 5 where its tables aren't of their shape, else the least
/// code from 6 to 16 whose cause holds of a node, with the number from 1 of the first such node. Or there
/// was no memory, which says nothing of the text.
pub fn read_topology(alloc: Global, text: &str) -> Result<Wiring, DocFault>
    ensures wiring { IfOk result (λ wiring. topology_of text.now ≡ Ok wiring) }
    ensures fault { IfErr result (IsTopologyFault (topology_of text.now)) }
{
    match read_text(alloc, text) {
        Ok(nodes) => wired(alloc, nodes),
        Err(fault) => Err(fault),
    }
}

// The wiring of these nodes.
fn wired(alloc: Global, nodes: Vec<Node>) -> Result<Wiring, DocFault>
    requires formed { AreFormed nodes.items }
    ensures wiring { IfOk result (λ wiring. accepted_nodes nodes.items ≡ Ok wiring) }
    ensures fault { IfErr result (IsTopologyFault (accepted_nodes nodes.items)) }
{
    // Nodes are counted by 32 bits.
    if nodes.len() > u32::MAX as usize {
        return Err(DocFault::NoMemory);
    }
    let Joined { graph, regions } = join(alloc, &nodes)?;
    check_graph(alloc, &nodes, &graph)?;
    check_regions(alloc, &nodes, &regions)?;
    let links = checked_links(alloc, &nodes, &graph)?;
    Ok(Wiring::new(nodes, graph, links, regions))
}

// What the nodes name: the graph of the nodes below each, and the regions of each.
#[derive(Debug, Drop)]
struct Joined {
    graph: NodeGraph,
    regions: Vec<Vec<Region>>,
}

// What the nodes name, where no two have one name and each name is that of a node.
fn join(alloc: Global, nodes: &[Node]) -> Result<Joined, DocFault>
    requires few { length nodes.now < 2 ^ 32 }
    ensures graph { IfOk result (λ joined. joined.graph ≡ graph_of nodes.now) }
    ensures regions { IfOk result (λ joined. region_lists joined.regions.items ≡ map (regions_of nodes.now) nodes.now) }
    ensures past { IfOk result (λ joined. IsPast nodes.now 2) }
    ensures fault { IfErr result (IsTopologyFault (accepted_nodes nodes.now)) }
{
    let names = own_names(alloc, nodes)?;
    if let Some(place) = first_unknown(nodes, &names) {
        return Err(refused(Cause::UnknownName, place));
    }
    let Ok(regions) = regions_of_nodes(alloc, nodes, &names) else {
        return Err(DocFault::NoMemory);
    };
    let Ok(below) = targets_of_nodes(alloc, nodes, &names, &regions) else {
        return Err(DocFault::NoMemory);
    };
    match NodeGraph::new(alloc, below) {
        Ok(graph) => Ok(Joined { graph, regions }),
        Err(_) => Err(DocFault::NoMemory),
    }
}

// The names of the nodes, where no two are the same.
fn own_names(alloc: Global, nodes: &[Node]) -> Result<IndexSet<&str>, DocFault>
    requires few { length nodes.now < 2 ^ 32 }
    ensures names { IfOk result (λ names. texts names.keys ≡ node_names nodes.now) }
    ensures past { IfOk result (λ names. IsPast nodes.now 1) }
    ensures fault { IfErr result (IsTopologyFault (accepted_nodes nodes.now)) }
{
    match names_of(alloc, nodes) {
        Ok(Ok(names)) => Ok(names),
        Ok(Err(place)) => Err(refused(Cause::DuplicateName, place)),
        Err(_) => Err(DocFault::NoMemory),
    }
}

// The nodes have as many nodes above them as they may and must have, and none stands on a cycle.
fn check_graph(alloc: Global, nodes: &[Node], graph: &NodeGraph) -> Result<(), DocFault>
    requires few { length nodes.now < 2 ^ 32 }
    requires joined { graph.now ≡ graph_of nodes.now }
    requires long { length graph.now ≡ length nodes.now }
    requires past { IsPast nodes.now 2 }
    ensures acyclic { IfOk result (λ unit. IsAcyclic graph.now) }
    ensures past { IfOk result (λ unit. IsPast nodes.now 5) }
    ensures fault { IfErr result (IsTopologyFault (accepted_nodes nodes.now)) }
{
    if let Some(place) = first_fan_in(nodes, graph) {
        return Err(refused(Cause::FanIn, place));
    }
    if let Some(place) = first_loose(nodes, graph) {
        return Err(refused(Cause::Loose, place));
    }
    match graph.first_on_cycle(alloc) {
        Ok(None) => Ok(()),
        Ok(Some(place)) => Err(refused(Cause::Cycle, place)),
        Err(_) => Err(DocFault::NoMemory),
    }
}

// No region is bad, and no two of a node share an address.
fn check_regions(alloc: Global, nodes: &[Node], regions: &[Vec<Region>]) -> Result<(), DocFault>
    requires few { length nodes.now < 2 ^ 32 }
    requires regions { region_lists regions.now ≡ map (regions_of nodes.now) nodes.now }
    requires past { IsPast nodes.now 5 }
    ensures past { IfOk result (λ unit. IsPast nodes.now 7) }
    ensures fault { IfErr result (IsTopologyFault (accepted_nodes nodes.now)) }
{
    if let Some(place) = first_bad_region(nodes) {
        return Err(refused(Cause::BadRegion, place));
    }
    match first_overlap(alloc, nodes, regions) {
        Ok(None) => Ok(()),
        Ok(Some(place)) => Err(refused(Cause::Overlap, place)),
        Err(_) => Err(DocFault::NoMemory),
    }
}

// What the links below each node are, where they fit and the network isn't too large.
fn checked_links(
    alloc: Global,
    nodes: &[Node],
    graph: &NodeGraph,
) -> Result<Vec<LinkKind>, DocFault>
    requires few { length nodes.now < 2 ^ 32 }
    requires joined { graph.now ≡ graph_of nodes.now }
    requires long { length graph.now ≡ length nodes.now }
    requires acyclic { IsAcyclic graph.now }
    requires past { IsPast nodes.now 7 }
    ensures links { IfOk result (λ links. AreLinks nodes.now links.items) }
    ensures past { IfOk result (λ links. IsPast nodes.now 11) }
    ensures fault { IfErr result (IsTopologyFault (accepted_nodes nodes.now)) }
{
    let Ok(links) = kinds_of_links(alloc, nodes, graph) else {
        return Err(DocFault::NoMemory);
    };
    match first_misfit(nodes, graph, &links) {
        Some(fault) => Err(fault),
        None => Ok(links),
    }
}

// Why the nodes are refused for their links or for their number.
fn first_misfit(nodes: &[Node], graph: &NodeGraph, links: &[LinkKind]) -> Option<DocFault>
    requires few { length nodes.now < 2 ^ 32 }
    requires joined { graph.now ≡ graph_of nodes.now }
    requires long { length graph.now ≡ length nodes.now }
    requires links { AreLinks nodes.now links.now }
    requires past { IsPast nodes.now 7 }
    ensures past { IfNone result (IsPast nodes.now 11) }
    ensures fault { IfSome result (IsTopologyFault (accepted_nodes nodes.now)) }
{
    if let Some(place) = first_width_mismatch(nodes, graph, links) {
        return Some(refused(Cause::WidthMismatch, place));
    }
    if let Some(place) = first_id_overflow(nodes, links) {
        return Some(refused(Cause::IdOverflow, place));
    }
    if let Some(place) = first_lite_mismatch(nodes, graph, links) {
        return Some(refused(Cause::LiteMismatch, place));
    }
    match first_too_large(nodes, graph) {
        Some(place) => Some(refused(Cause::TooLarge, place)),
        None => None,
    }
}

// The node of this number, which is less than the greatest of 32 bits, is refused for a cause.
fn refused(cause: Cause, place: u32) -> DocFault
    ensures { result ≡ Refused (refused_at cause (min (place + 1) (2 ^ 32 - 1))) }
{
    DocFault::Refused(Refusal::at(cause, place.saturating_add(1)))
}
