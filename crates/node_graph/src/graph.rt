//! A directed graph that tells what is above a node as fast as what is below it.

ghost use Rattle.std.specs.Prelude.{◌≡◌, ◌<◌, ◌^◌, ℕ, IfOk, OnOk, [], true, false, length, slice_index_or};
ghost use Rattle.node_graph.specs.Graph.{is_in, nodes_above, nodes_below};
ghost use Rattle.node_graph.specs.Inside.{AddsUpper, HasAbove};
ghost use Rattle.node_graph.specs.Order.{repeats};
ghost use Rattle.node_graph.specs.Simple.{IsSimple, lists_in};

use std::alloc::{AllocError, Global};
use std::marker::Model;

/// A directed graph of fewer than 2^32 nodes, seen as the list that has for each node the nodes below it.
/// Each of these is a node of the graph, and none is below another one twice.
#[derive(Debug, Drop)]
pub struct NodeGraph {
    below: Vec<Vec<u32>>,
    above: Vec<Vec<u32>>,
}

impl Model for NodeGraph {
    ghost use Rattle.node_graph.specs.Graph.{Graph};

    ghost Value = { Graph };

    ghost use Rattle.node_graph.specs.Inside.{IsNodeGraph, graph_in};

    ghost view = { graph_in };

    ghost invariant = { IsNodeGraph };
}

impl NodeGraph {
    /// The graph with these nodes below each node.
    ///
    /// # Errors
    ///
    /// There was no memory for it.
    pub fn new(alloc: Global, below: Vec<Vec<u32>>) -> Result<NodeGraph, AllocError>
        requires simple { IsSimple (lists_in below.items) }
        requires few { length below.items < 2 ^ 32 }
        ensures { IfOk result (λ graph. graph ≡ lists_in below.items) }
    {
        let above = turned(alloc, &below)?;
        Ok(NodeGraph { below, above })
    }

    /// The number of nodes.
    pub fn count(&self) -> u32
        ensures { result ≡ length self.now }
    {
        self.below.len() as u32
    }

    /// The nodes below a node, each of which is a node of the graph and stands there once.
    pub fn below(&self, node: u32) -> &[u32]
        requires { node < length self.now }
        ensures nodes { result.now ≡ nodes_below self.now node }
        ensures known { (lower : ℕ) → is_in result.now lower ≡ true → lower < length self.now }
        ensures once { repeats result.now ≡ false }
    {
        self.lowers(node)
    }

    /// The nodes above a node, in order of number.
    pub fn above(&self, node: u32) -> &[u32]
        requires { node < length self.now }
        ensures nodes { result.now ≡ nodes_above self.now node }
        ensures few { length result.now < 2 ^ 32 }
    {
        self.uppers(node)
    }

    // The nodes below a node.
    fn lowers(&self, node: u32) -> &[u32]
        requires { node < length self.now }
        ensures nodes { result.now ≡ nodes_below self.now node }
        ensures simple { IsSimple self.now }
    {
        &self.below[node as usize]
    }

    // The nodes above a node.
    fn uppers(&self, node: u32) -> &[u32]
        requires { node < length self.now }
        ensures nodes { result.now ≡ nodes_above self.now node }
        ensures few { length self.now < 2 ^ 32 }
    {
        &self.above[node as usize]
    }
}

// The nodes above each node.
fn turned(alloc: Global, below: &[Vec<u32>]) -> Result<Vec<Vec<u32>>, AllocError>
    requires simple { IsSimple (lists_in below.now) }
    requires few { length below.now < 2 ^ 32 }
    ensures { IfOk result (λ above. HasAbove (lists_in below.now) (length below.now) (lists_in above.items)) }
{
    let mut above = empty_lists(alloc, below.len())?;
    for (upper, lowers) in below.iter().enumerate() {
        add_upper(&mut above, lowers, upper as u32)?;
    }
    Ok(above)
}

// So many empty lists.
fn empty_lists(alloc: Global, count: usize) -> Result<Vec<Vec<u32>>, AllocError>
    ensures long { IfOk result (λ lists. length (lists_in lists.items) ≡ count) }
    ensures empty { IfOk result (λ lists. (node : ℕ) → slice_index_or (lists_in lists.items) node [] ≡ []) }
{
    let mut lists = Vec::new(alloc);
    for _node in 0..count {
        lists.push(Vec::new(alloc))?;
    }
    Ok(lists)
}

// Puts a node at the end of the lists of these nodes.
fn add_upper(above: &mut [Vec<u32>], lowers: &[u32], upper: u32) -> Result<(), AllocError>
    requires known { (lower : ℕ) → is_in lowers.now lower ≡ true → lower < length above.old }
    requires once { repeats lowers.now ≡ false }
    ensures { OnOk result (AddsUpper lowers.now upper (lists_in above.old) (lists_in above.new)) }
{
    for lower in lowers {
        above[*lower as usize].push(upper)?;
    }
    Ok(())
}
