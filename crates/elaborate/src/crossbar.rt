//! The plan nodes of a crossbar.

ghost use Rattle.std.specs.Prelude.{◌≡◌, ◌≤◌, ◌<◌, ◌+◌, ◌*◌, ◌++◌, ◌∷◌, [], IfOk, OnOk, flat_map, length, map};
ghost use Rattle.node_graph.specs.Graph.{numbers};
ghost use Rattle.topology.specs.Document.{uppers_of};
ghost use Rattle.topology.specs.Refused.{IsAccepted};
ghost use Rattle.elaborate.specs.Inside.{HasFirsts};
ghost use Rattle.elaborate.specs.Plan.{crossbar_parts, first_part, input_parts, target_mux, targets};

use crate::counts::{first_of, input_count, target_count};
use crate::entrances::{entrance, input_link};
use crate::names::numbered_name;
use crate::node::NodeParts;
use crate::part::Part;
use crate::parts::error_subordinate;
use std::alloc::{AllocError, Global};
use topology::Wiring;

/// Adds the plan nodes of a crossbar: a demux and an error subordinate for each input, then a mux for
/// each target.
pub(crate) fn push_crossbar(
    alloc: Global,
    nodes: &mut Vec<NodeParts>,
    wiring: &Wiring,
    firsts: &[u32],
    place: u32,
) -> Result<(), AllocError>
    requires firsts { HasFirsts wiring.now firsts.now }
    requires inside { place < length wiring.now }
    ensures { OnOk result (nodes.new.items ≡ nodes.old.items ++ crossbar_parts wiring.now place) }
{
    let first = first_of(wiring, firsts, place);
    push_inputs(alloc, nodes, wiring, first, place)?;
    push_targets(alloc, nodes, wiring, firsts, place)
}

// Adds a demux and an error subordinate for each input.
#[tactic(auto, unfolding(node_graph::specs::Graph::numbers))]
fn push_inputs(
    alloc: Global,
    nodes: &mut Vec<NodeParts>,
    wiring: &Wiring,
    first: u32,
    place: u32,
) -> Result<(), AllocError>
    requires first { first ≡ first_part wiring.now place }
    requires small { first ≤ 1024 }
    requires accepted { IsAccepted wiring.now }
    requires inside { place < length wiring.now }
    ensures { OnOk result (nodes.new.items ≡ nodes.old.items ++ flat_map (input_parts wiring.now place) (numbers (length (uppers_of wiring.now place)))) }
{
    for input in 0..input_count(wiring, place) {
        push_input(alloc, nodes, wiring, first, place, input)?;
    }
    Ok(())
}

// Adds the demux of an input, and its error subordinate.
fn push_input(
    alloc: Global,
    nodes: &mut Vec<NodeParts>,
    wiring: &Wiring,
    first: u32,
    place: u32,
    input: u32,
) -> Result<(), AllocError>
    requires first { first ≡ first_part wiring.now place }
    requires small { first ≤ 1024 }
    requires accepted { IsAccepted wiring.now }
    requires inside { place < length wiring.now }
    requires input { input < 16 }
    ensures { OnOk result (nodes.new.items ≡ nodes.old.items ++ input_parts wiring.now place input) }
{
    let muxes = first + 2 * input_count(wiring, place);
    let mut lower = counted(alloc, muxes, target_count(wiring, place))?;
    lower.push(first + 2 * input + 1)?;
    let name = numbered_name(alloc, wiring.name(place), ".d", input)?;
    nodes.push(NodeParts::new(
        Part::Demux,
        place,
        name,
        lower,
        input_link(wiring, place, input as usize),
    ))?;
    let name = numbered_name(alloc, wiring.name(place), ".e", input)?;
    nodes.push(error_subordinate(alloc, place, name))?;
    Ok(())
}

// So many numbers from one on.
#[tactic(auto, unfolding(node_graph::specs::Graph::numbers))]
fn counted(alloc: Global, from: u32, count: u32) -> Result<Vec<u32>, AllocError>
    requires from { from ≤ 2048 }
    requires few { count ≤ 16 }
    ensures { IfOk result (λ list. list.items ≡ map (λ j. from + j) (numbers count)) }
{
    let mut list = Vec::new(alloc);
    for number in 0..count {
        list.push(from + number)?;
    }
    Ok(list)
}

// Adds a mux for each target.
#[tactic(auto, unfolding(node_graph::specs::Graph::numbers))]
fn push_targets(
    alloc: Global,
    nodes: &mut Vec<NodeParts>,
    wiring: &Wiring,
    firsts: &[u32],
    place: u32,
) -> Result<(), AllocError>
    requires firsts { HasFirsts wiring.now firsts.now }
    requires inside { place < length wiring.now }
    ensures { OnOk result (nodes.new.items ≡ nodes.old.items ++ map (target_mux wiring.now place) (numbers (length (targets wiring.now place)))) }
{
    for port in 0..target_count(wiring, place) {
        push_target(alloc, nodes, wiring, firsts, place, port)?;
    }
    Ok(())
}

// Adds the mux of a target.
fn push_target(
    alloc: Global,
    nodes: &mut Vec<NodeParts>,
    wiring: &Wiring,
    firsts: &[u32],
    place: u32,
    port: u32,
) -> Result<(), AllocError>
    requires firsts { HasFirsts wiring.now firsts.now }
    requires inside { place < length wiring.now }
    requires port { port < length (targets wiring.now place) }
    ensures { OnOk result (nodes.new.items ≡ nodes.old.items ++ target_mux wiring.now place port ∷ []) }
{
    let target = wiring.targets(place)[port as usize];
    let name = numbered_name(alloc, wiring.name(place), ".m", port)?;
    let lower = Vec::from_slice(alloc, &[entrance(wiring, firsts, place, target)])?;
    nodes.push(NodeParts::new(Part::Mux, place, name, lower, wiring.link(place)))?;
    Ok(())
}
