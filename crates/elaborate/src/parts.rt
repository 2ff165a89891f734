//! The plan nodes that the nodes of a document become.

ghost use Rattle.std.specs.Prelude.{◌≡◌, ◌<◌, ◌++◌, ◌∷◌, [], IfOk, OnOk, codes, length, string_bytes};
ghost use Rattle.topology.specs.Document.{no_link};
ghost use Rattle.elaborate.specs.declared.part.Part.TheVariants as part;
ghost use Rattle.elaborate.specs.Inside.{HasFirsts};
ghost use Rattle.elaborate.specs.Plan.{demux_itself, error_part, itself, node_parts, plan_nodes, split_part};

use crate::counts::first_of;
use crate::crossbar::push_crossbar;
use crate::entrances::{entrances, input_link};
use crate::names::{own_name, suffixed_name};
use crate::node::NodeParts;
use crate::part::Part;
use std::alloc::{AllocError, Global};
use topology::{Kind, LinkKind, Wiring};

/// The plan nodes of all document nodes.
#[tactic(auto, unfolding(node_graph::specs::Graph::numbers))]
pub(crate) fn plan_nodes(
    alloc: Global,
    wiring: &Wiring,
    firsts: &[u32],
) -> Result<Vec<NodeParts>, AllocError>
    requires firsts { HasFirsts wiring.now firsts.now }
    ensures { IfOk result (λ nodes. nodes.items ≡ plan_nodes wiring.now) }
{
    let mut nodes = Vec::new(alloc);
    for place in 0..wiring.count() {
        push_parts(alloc, &mut nodes, wiring, firsts, place)?;
    }
    Ok(nodes)
}

// Adds the plan nodes that a document node becomes.
fn push_parts(
    alloc: Global,
    nodes: &mut Vec<NodeParts>,
    wiring: &Wiring,
    firsts: &[u32],
    place: u32,
) -> Result<(), AllocError>
    requires firsts { HasFirsts wiring.now firsts.now }
    requires inside { place < length wiring.now }
    ensures { OnOk result (nodes.new.items ≡ nodes.old.items ++ node_parts wiring.now place) }
{
    match wiring.kind(place) {
        Kind::Manager => push_itself(alloc, nodes, wiring, firsts, place, Part::Manager),
        Kind::Memory => push_itself(alloc, nodes, wiring, firsts, place, Part::Memory),
        Kind::LiteMemory => push_itself(alloc, nodes, wiring, firsts, place, Part::LiteMemory),
        Kind::Slice => push_itself(alloc, nodes, wiring, firsts, place, Part::Slice),
        Kind::Mux => push_itself(alloc, nodes, wiring, firsts, place, Part::Mux),
        Kind::Remap => push_itself(alloc, nodes, wiring, firsts, place, Part::Remap),
        Kind::Up => push_itself(alloc, nodes, wiring, firsts, place, Part::Up),
        Kind::Down => push_split(alloc, nodes, wiring, firsts, place, Part::Down),
        Kind::Lite => push_split(alloc, nodes, wiring, firsts, place, Part::Lite),
        Kind::Demux => push_demux(alloc, nodes, wiring, firsts, place),
        Kind::Crossbar => push_crossbar(alloc, nodes, wiring, firsts, place),
    }
}

// Adds a document node as a plan node of its own.
fn push_itself(
    alloc: Global,
    nodes: &mut Vec<NodeParts>,
    wiring: &Wiring,
    firsts: &[u32],
    place: u32,
    part: Part,
) -> Result<(), AllocError>
    requires firsts { HasFirsts wiring.now firsts.now }
    requires inside { place < length wiring.now }
    ensures { OnOk result (nodes.new.items ≡ nodes.old.items ++ itself wiring.now place part ∷ []) }
{
    let name = own_name(alloc, wiring.name(place))?;
    let lower = entrances(alloc, wiring, firsts, place)?;
    nodes.push(NodeParts::new(part, place, name, lower, wiring.link(place)))?;
    Ok(())
}

// Adds a splitter, and behind it the document node itself.
fn push_split(
    alloc: Global,
    nodes: &mut Vec<NodeParts>,
    wiring: &Wiring,
    firsts: &[u32],
    place: u32,
    part: Part,
) -> Result<(), AllocError>
    requires firsts { HasFirsts wiring.now firsts.now }
    requires inside { place < length wiring.now }
    ensures { OnOk result (nodes.new.items ≡ nodes.old.items ++ split_part wiring.now place ∷ itself wiring.now place part ∷ []) }
{
    let name = suffixed_name(alloc, wiring.name(place), ".split")?;
    let lower = Vec::from_slice(alloc, &[first_of(wiring, firsts, place) + 1])?;
    nodes.push(NodeParts::new(
        Part::Split,
        place,
        name,
        lower,
        input_link(wiring, place, 0),
    ))?;
    push_itself(alloc, nodes, wiring, firsts, place, part)
}

// Adds a demux, and its error subordinate.
fn push_demux(
    alloc: Global,
    nodes: &mut Vec<NodeParts>,
    wiring: &Wiring,
    firsts: &[u32],
    place: u32,
) -> Result<(), AllocError>
    requires firsts { HasFirsts wiring.now firsts.now }
    requires inside { place < length wiring.now }
    ensures { OnOk result (nodes.new.items ≡ nodes.old.items ++ demux_itself wiring.now place ∷ error_part wiring.now place (codes ".err") ∷ []) }
{
    let name = own_name(alloc, wiring.name(place))?;
    let mut lower = entrances(alloc, wiring, firsts, place)?;
    lower.push(first_of(wiring, firsts, place) + 1)?;
    nodes.push(NodeParts::new(Part::Demux, place, name, lower, wiring.link(place)))?;
    let name = suffixed_name(alloc, wiring.name(place), ".err")?;
    nodes.push(error_subordinate(alloc, place, name))?;
    Ok(())
}

/// An error subordinate, which has no link below it.
pub(crate) fn error_subordinate(alloc: Global, place: u32, name: String) -> NodeParts
    ensures { result ≡ record { part = part.Error; document = place; name = string_bytes name; lower = []; link = no_link } }
{
    NodeParts::new(
        Part::Error,
        place,
        name,
        Vec::new(alloc),
        LinkKind::default(),
    )
}
