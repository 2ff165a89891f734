//! Where the answers to transactions are noted.

ghost use Rattle.std.specs.Prelude.{◌≡◌, IfOk, length, map, replicate};
ghost use Rattle.net_build.specs.Notes.{note_of};
ghost use Rattle.node_graph.specs.Graph.{numbers};
ghost use Rattle.plan_traffic.specs.Accepted.{IsTraffic};

use elaborate::Plan;
use plan_traffic::Traffic;
use std::alloc::{AllocError, Global};

/// Where the answer to a transaction is noted: the plan node of its manager, and its place in the
/// manager's script.
#[derive(Clone, Copy)]
pub(crate) struct Note {
    pub node: u32,
    pub place: u32,
}

/// Where each transaction's answer is noted, in order of number. The counts are those of the document's
/// nodes, each of them 0.
#[tactic(auto, unfolding(node_graph::specs::Graph::numbers))]
pub(crate) fn notes_of(
    alloc: Global,
    plan: &Plan,
    traffic: &Traffic,
    counts: Vec<u32>,
) -> Result<Vec<Note>, AllocError>
    requires traffic { IsTraffic plan.now traffic.now }
    requires counts { counts.items ≡ replicate (length plan.now) 0 }
    ensures { IfOk result (λ notes. notes.items ≡ map (note_of plan.now traffic.now) (numbers (length traffic.now))) }
{
    // How many transactions each document node has so far.
    let mut counts = counts;
    let mut notes = Vec::new(alloc);
    for place in 0..traffic.count() {
        let manager = traffic.manager(place + 1);
        notes.push(Note {
            node: plan.first(manager),
            place: counts[manager as usize],
        })?;
        counts[manager as usize] += 1;
    }
    Ok(notes)
}

/// So many counts, each of them 0.
pub(crate) fn no_counts(alloc: Global, count: usize) -> Result<Vec<u32>, AllocError>
    ensures { IfOk result (λ counts. counts.items ≡ replicate count 0) }
{
    let mut counts = Vec::new(alloc);
    counts.resize(count, 0)?;
    Ok(counts)
}
