//! What each link is, from the managers downwards.

ghost use Rattle.std.specs.Prelude.{◌≡◌, ◌<◌, ◌-◌, ◌^◌, IfOk, cond, length, map, max, min};
ghost use Rattle.node_graph.specs.Laws.{IsAcyclic};
ghost use Rattle.topology.specs.Document.{digits_up_to, first_link, graph_of, link_below, merged_link, no_link, widest};
ghost use Rattle.topology.specs.Links.{AreLinks, capped, known_link};

use crate::kinds::node_at;
use crate::link::LinkKind;
use node_graph::NodeGraph;
use std::alloc::{AllocError, Global};
use topology_text::{Kind, Node};

/// What the links below each node are, where no node stands on a cycle. IDs of more than 255 bits are
/// told as of 255.
pub(crate) fn kinds_of_links(
    alloc: Global,
    nodes: &[Node],
    graph: &NodeGraph,
) -> Result<Vec<LinkKind>, AllocError>
    requires joined { graph.now ≡ graph_of nodes.now }
    requires long { length graph.now ≡ length nodes.now }
    requires acyclic { IsAcyclic graph.now }
    requires few { length nodes.now < 2 ^ 32 }
    ensures { IfOk result (λ links. AreLinks nodes.now links.items) }
{
    let mut links = Vec::from_elem(alloc, LinkKind::default(), nodes.len())?;
    let Some(order) = graph.order(alloc)? else {
        return Ok(links);
    };
    for place in order.iter() {
        let link = link_below(
            node_at(nodes, *place),
            graph.above(*place),
            links.as_slice(),
        );
        links[*place as usize] = link;
    }
    Ok(links)
}

// What the links below a node are.
fn link_below(node: &Node, uppers: &[u32], links: &[LinkKind]) -> LinkKind
    requires few { length uppers.now < 2 ^ 32 }
    ensures { result ≡ capped (link_below node.now.kind node.now (map (known_link links.now) uppers.now)) }
{
    let input = first_link(uppers, links);
    match node.kind() {
        Kind::Manager => LinkKind {
            lite: false,
            bus: node.bus(),
            id_width: node.id_width(),
        },
        Kind::Mux | Kind::Crossbar => LinkKind {
            id_width: merged_width(uppers, links),
            ..input
        },
        Kind::Remap => LinkKind {
            id_width: node.id_width(),
            ..input
        },
        Kind::Up | Kind::Down => LinkKind {
            bus: node.bus(),
            ..input
        },
        Kind::Lite => LinkKind {
            lite: true,
            bus: input.bus,
            id_width: 0,
        },
        Kind::Memory | Kind::LiteMemory | Kind::Slice | Kind::Demux => input,
    }
}

/// What the first link above a node is.
pub(crate) fn first_link(uppers: &[u32], links: &[LinkKind]) -> LinkKind
    ensures { result ≡ first_link (map (known_link links.now) uppers.now) }
{
    match uppers.first() {
        Some(upper) => link_of(*upper, links),
        None => LinkKind::default(),
    }
}

/// What the links below this node are.
pub(crate) fn link_of(place: u32, links: &[LinkKind]) -> LinkKind
    ensures { result ≡ known_link links.now place }
{
    match links.get(place as usize) {
        Some(link) => *link,
        None => LinkKind::default(),
    }
}

// The bits of an ID below a node that joins these links.
fn merged_width(uppers: &[u32], links: &[LinkKind]) -> u8
    requires few { length uppers.now < 2 ^ 32 }
    ensures { result ≡ min (merged_link (map (known_link links.now) uppers.now)).id_width 255 }
{
    let inputs = uppers.len() as u32;
    widest(uppers, links).saturating_add(digits_of(inputs.saturating_sub(1)))
}

// The widest IDs of some links.
fn widest(uppers: &[u32], links: &[LinkKind]) -> u8
    ensures { result ≡ widest (map (known_link links.now) uppers.now) }
{
    let mut most = 0;
    for upper in uppers {
        most = most.max(link_of(*upper, links).id_width);
    }
    most
}

// The number of binary digits of a number.
fn digits_of(number: u32) -> u8
    ensures digits { result ≡ digits_up_to 32 number }
    ensures few { result < 33 }
{
    let mut rest = number;
    let mut digits: u8 = 0;
    for _digit in 0..32_u32 {
        digits += one_where(rest != 0);
        rest /= 2;
    }
    digits
}

// One where something holds, else nothing.
fn one_where(holds: bool) -> u8
    ensures { result ≡ cond holds 1 0 }
{
    if holds { 1 } else { 0 }
}
