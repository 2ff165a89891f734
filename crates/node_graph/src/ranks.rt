//! Ranks of nodes: numbers that are the same for nodes on one cycle, and higher below than above else.
//!
//! They are made by two searches in depth, one downwards and one upwards, of which no clause speaks:
//! who uses ranks asks first whether they tell what is to be known. So they cost no proof, and where
//! they tell nothing, time alone is lost.

ghost use Rattle.std.specs.Prelude.{◌≡◌, ◌<◌, ◌≤◌, ℕ, length, nat_le, nat_lt, slice_index_or, true};
ghost use Rattle.std.specs.List.{list_all};
ghost use Rattle.node_graph.specs.Ranks.{NeverFalls, is_never_lower, is_risen, rank_in};
ghost use Rattle.node_graph.specs.Graph.{nodes_below};

use crate::graph::NodeGraph;
use std::alloc::{AllocError, Global};

// A node that the search downwards comes to, or leaves with all that is below it.
#[derive(Clone, Copy, Debug)]
struct Stop {
    node: u32,
    leaves: bool,
}

// All loops over a stack end when it is empty.
const ALL: u64 = u64::MAX;

impl NodeGraph {
    /// Ranks of the nodes.
    pub(crate) fn ranks(&self, alloc: Global) -> Result<Vec<usize>, AllocError> {
        let nodes = self.count() as usize;
        let mut seen = Vec::from_elem(alloc, false, nodes)?;
        let mut ranks = Vec::from_elem(alloc, 0, nodes)?;
        let left = self.leave_all(alloc, &mut seen)?;
        self.rank_all(alloc, &left, &mut ranks)?;
        Ok(ranks)
    }

    // All nodes, in the order in which a search downwards leaves them.
    fn leave_all(&self, alloc: Global, seen: &mut [bool]) -> Result<Vec<u32>, AllocError>
        requires { length seen.old ≡ length self.now }
    {
        let mut stops = Vec::new(alloc);
        let mut left = Vec::new(alloc);
        for node in 0..self.count() {
            stops.push(Stop {
                node,
                leaves: false,
            })?;
            self.go_down(seen, &mut stops, &mut left)?;
        }
        Ok(left)
    }

    // Goes on with the last stop, until there is none.
    fn go_down(
        &self,
        seen: &mut [bool],
        stops: &mut Vec<Stop>,
        left: &mut Vec<u32>,
    ) -> Result<(), AllocError>
        requires { length seen.old ≡ length self.now }
    {
        for _stop in 0..ALL {
            match stops.pop() {
                Some(stop) if stop.leaves => left.push(stop.node)?,
                Some(stop) => self.come_to(stop.node, seen, stops)?,
                None => return Ok(()),
            }
        }
        Ok(())
    }

    // Comes to a node: it is left after all nodes below it that weren't seen.
    fn come_to(&self, node: u32, seen: &mut [bool], stops: &mut Vec<Stop>) -> Result<(), AllocError>
        requires { length seen.old ≡ length self.now }
    {
        if node >= self.count() || seen[node as usize] {
            return Ok(());
        }
        seen[node as usize] = true;
        stops.push(Stop { node, leaves: true })?;
        for lower in self.below(node) {
            stops.push(Stop {
                node: *lower,
                leaves: false,
            })?;
        }
        Ok(())
    }

    // From the node that was left last: all nodes that lead to it, and have no rank yet, get one rank.
    fn rank_all(&self, alloc: Global, left: &[u32], ranks: &mut [usize]) -> Result<(), AllocError>
        requires { length ranks.old ≡ length self.now }
    {
        let mut nodes = Vec::new(alloc);
        for place in 0..left.len() {
            nodes.push(left[left.len() - 1 - place])?;
            self.go_up(place + 1, ranks, &mut nodes)?;
        }
        Ok(())
    }

    // Goes on with the last node, until there is none.
    fn go_up(
        &self,
        rank: usize,
        ranks: &mut [usize],
        nodes: &mut Vec<u32>,
    ) -> Result<(), AllocError>
        requires { length ranks.old ≡ length self.now }
    {
        for _node in 0..ALL {
            match nodes.pop() {
                Some(node) => self.rank_node(node, rank, ranks, nodes)?,
                None => return Ok(()),
            }
        }
        Ok(())
    }

    // Ranks a node that has no rank yet. Those above it come next.
    fn rank_node(
        &self,
        node: u32,
        rank: usize,
        ranks: &mut [usize],
        nodes: &mut Vec<u32>,
    ) -> Result<(), AllocError>
        requires { length ranks.old ≡ length self.now }
    {
        if node >= self.count() || ranks[node as usize] != 0 {
            return Ok(());
        }
        ranks[node as usize] = rank;
        for upper in self.above(node) {
            nodes.push(*upper)?;
        }
        Ok(())
    }

    /// Whether no link leads to a lower rank.
    pub(crate) fn never_falls(&self, ranks: &[usize]) -> bool
        ensures { result ≡ true → NeverFalls self.now ranks.now }
    {
        for node in 0..self.count() {
            if !self.is_never_lower(node, ranks) {
                return false;
            }
        }
        true
    }

    // Whether no link of a node leads to a lower rank.
    fn is_never_lower(&self, node: u32, ranks: &[usize]) -> bool
        requires { node < length self.now }
        ensures { result ≡ is_never_lower self.now ranks.now node }
    {
        let own = rank_in(ranks, node);
        self.below(node)
            .iter()
            .all(|lower| own <= rank_in(ranks, *lower))
    }

    /// Whether each link of a node leads to a higher rank.
    pub(crate) fn is_risen(&self, node: u32, ranks: &[usize]) -> bool
        requires { node < length self.now }
        ensures { result ≡ is_risen self.now ranks.now node }
    {
        let own = rank_in(ranks, node);
        self.below(node)
            .iter()
            .all(|lower| own < rank_in(ranks, *lower))
    }
}

// The rank of a node.
fn rank_in(ranks: &[usize], node: u32) -> usize
    ensures { result ≡ rank_in ranks.now node }
{
    match ranks.get(node as usize) {
        Some(rank) => *rank,
        None => 0,
    }
}
