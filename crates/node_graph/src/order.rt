//! An order of a graph's nodes that leads downwards.

ghost use Rattle.std.specs.Prelude.{◌≡◌, ◌==◌, ◌<◌, ◌+◌, ◌-◌, ◌^◌, ◌++◌, ℕ, IfOk, IfSome, OnOk, [], ◌∷◌, None, cond, filter, length, slice_index_or, slice_set};
ghost use Rattle.std.specs.List.{list_all, range_with_len};
ghost use Rattle.node_graph.specs.Graph.{nodes_above};
ghost use Rattle.node_graph.specs.Simple.{HasCycle, LeadsDown};
ghost use Rattle.node_graph.specs.Visits.{AreVisited};

use crate::graph::NodeGraph;
use std::alloc::{AllocError, Global};

impl NodeGraph {
    /// All nodes, each after the nodes above it; `None` exactly where a node stands on a cycle.
    ///
    /// # Errors
    ///
    /// There was no memory for them.
    pub fn order(&self, alloc: Global) -> Result<Option<Vec<u32>>, AllocError>
        ensures order { IfOk result (λ found. IfSome found (λ order. LeadsDown self.now order.items)) }
        ensures cycle { IfOk result (λ found. found ≡ None → HasCycle self.now) }
    {
        let nodes = self.count();
        let mut waiting = self.counts_above(alloc)?;
        let mut queue = nodes_of_none(alloc, nodes, &waiting)?;
        for count in 0..nodes {
            self.visit_next(count, &mut waiting, &mut queue)?;
        }
        if are_zero(&waiting) {
            Ok(Some(queue))
        } else {
            Ok(None)
        }
    }

    // The number of nodes above each node.
    fn counts_above(&self, alloc: Global) -> Result<Vec<u32>, AllocError>
        ensures long { IfOk result (λ counts. length counts.items ≡ length self.now) }
        ensures each { IfOk result (λ counts. (node : ℕ) → node < length self.now → slice_index_or counts.items node 0 ≡ length (nodes_above self.now node)) }
    {
        let mut counts = Vec::new(alloc);
        for node in 0..self.count() {
            counts.push(self.above(node).len() as u32)?;
        }
        Ok(counts)
    }

    // Visits the node at this place of the queue, if there is one.
    fn visit_next(
        &self,
        place: u32,
        waiting: &mut [u32],
        queue: &mut Vec<u32>,
    ) -> Result<(), AllocError>
        requires visited { AreVisited self.now place waiting.old queue.old.items }
        ensures { OnOk result (AreVisited self.now (place + 1) waiting.new queue.new.items) }
    {
        if (place as usize) < queue.len() {
            self.visit(place, waiting, queue)
        } else {
            Ok(())
        }
    }

    // Visits the node at this place of the queue: each node below it waits for one less.
    fn visit(&self, place: u32, waiting: &mut [u32], queue: &mut Vec<u32>) -> Result<(), AllocError>
        requires visited { AreVisited self.now place waiting.old queue.old.items }
        requires there { place < length queue.old.items }
        ensures { OnOk result (AreVisited self.now (place + 1) waiting.new queue.new.items) }
    {
        for lower in self.below(queue[place as usize]) {
            release(*lower, waiting, queue)?;
        }
        Ok(())
    }
}

// The nodes of these that wait for none.
fn nodes_of_none(alloc: Global, count: u32, waiting: &[u32]) -> Result<Vec<u32>, AllocError>
    requires { length waiting.now ≡ count }
    ensures { IfOk result (λ nodes. nodes.items ≡ filter (λ node. slice_index_or waiting.now node 0 == 0) (range_with_len 0 count)) }
{
    let mut nodes = Vec::new(alloc);
    for node in 0..count {
        push_free(node, waiting[node as usize], &mut nodes)?;
    }
    Ok(nodes)
}

// Adds a node that waits for none.
fn push_free(node: u32, count: u32, nodes: &mut Vec<u32>) -> Result<(), AllocError>
    ensures { OnOk result (nodes.new.items ≡ nodes.old.items ++ (cond (count == 0) (node ∷ []) [])) }
{
    if count == 0 {
        nodes.push(node)?;
    }
    Ok(())
}

// A node waits for one less, and where it waits for none now it comes to the end of the queue.
fn release(node: u32, waiting: &mut [u32], queue: &mut Vec<u32>) -> Result<(), AllocError>
    requires inside { node < length waiting.old }
    requires waits { 0 < slice_index_or waiting.old node 0 }
    ensures waiting { OnOk result (waiting.new ≡ slice_set waiting.old node (slice_index_or waiting.old node 0 - 1)) }
    ensures queue { OnOk result (queue.new.items ≡ queue.old.items ++ (cond (slice_index_or waiting.old node 0 == 1) (node ∷ []) [])) }
{
    waiting[node as usize] -= 1;
    if waiting[node as usize] == 0 {
        queue.push(node)?;
    }
    Ok(())
}

// Whether each of these counts is 0.
fn are_zero(counts: &[u32]) -> bool
    ensures { result ≡ list_all (λ count. count == 0) counts.now }
{
    counts.iter().all(|count| *count == 0)
}
