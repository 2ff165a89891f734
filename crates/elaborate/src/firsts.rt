//! The numbers of the first plan nodes of a document's nodes.

ghost use Rattle.std.specs.Prelude.{◌≡◌, ◌≤◌, ◌<◌, IfOk, length};
ghost use Rattle.topology.specs.Document.{plan_nodes_at, plan_nodes_of};
ghost use Rattle.topology.specs.Refused.{IsAccepted};
ghost use Rattle.elaborate.specs.Inside.{HasFirsts};

use crate::counts::{input_count, target_count};
use std::alloc::{AllocError, Global};
use topology::{Kind, Wiring};

/// The number of the first plan node of each document node.
#[tactic(auto, unfolding(node_graph::specs::Graph::numbers))]
pub(crate) fn first_parts(alloc: Global, wiring: &Wiring) -> Result<Vec<u32>, AllocError>
    ensures { IfOk result (λ firsts. HasFirsts wiring.now firsts.items) }
{
    let mut firsts = Vec::new(alloc);
    let mut first = 0;
    for place in 0..wiring.count() {
        firsts.push(first)?;
        first += plan_nodes_at(wiring, place);
    }
    Ok(firsts)
}

// How many plan nodes a document node becomes.
fn plan_nodes_at(wiring: &Wiring, place: u32) -> u32
    requires accepted { IsAccepted wiring.now }
    requires inside { place < length wiring.now }
    ensures count { result ≡ plan_nodes_at wiring.now place }
    ensures few { result ≤ 48 }
{
    let inputs = input_count(wiring, place);
    let targets = target_count(wiring, place);
    plan_nodes_of(wiring.kind(place), inputs, targets)
}

// How many plan nodes a document node of this kind with so many inputs and targets becomes.
fn plan_nodes_of(kind: Kind, inputs: u32, targets: u32) -> u32
    requires inputs { inputs ≤ 16 }
    requires targets { targets ≤ 16 }
    ensures count { result ≡ plan_nodes_of kind inputs targets }
    ensures few { result ≤ 48 }
{
    match kind {
        Kind::Demux | Kind::Down | Kind::Lite => 2,
        Kind::Crossbar => 2 * inputs + targets,
        _ => 1,
    }
}
