//! The nodes that stand on cycles.

ghost use Rattle.std.specs.Prelude.{◌≡◌, ◌<◌, ◌+◌, ◌++◌, ℕ, IfOk, IfSome, OnOk, [], ◌∷◌, cond, false, find, length, not, replicate, true};
ghost use Rattle.node_graph.specs.Graph.{has_way, is_in, is_on_cycle, nodes_below, numbers};
ghost use Rattle.node_graph.specs.Ranks.{is_risen};
ghost use Rattle.node_graph.specs.Search.{IsSearch, NotesFound, PassesNode};

use crate::graph::NodeGraph;
use std::alloc::{AllocError, Global};

// A search downwards from a node: which nodes are found, and in which order.
#[derive(Debug, Drop)]
pub(crate) struct Search {
    pub start: u32,
    pub found: Vec<bool>,
    pub queue: Vec<u32>,
}

impl NodeGraph {
    /// The first node that stands on a cycle. Time is linear in the numbers of nodes and links.
    ///
    /// # Errors
    ///
    /// There was no memory for the search.
    pub fn first_on_cycle(&self, alloc: Global) -> Result<Option<u32>, AllocError>
        ensures { IfOk result (λ found. found ≡ find (is_on_cycle self.now) (numbers (length self.now))) }
    {
        let ranks = self.ranks(alloc)?;
        match self.told_by(alloc, &ranks)? {
            Some(found) => Ok(found),
            None => self.search_each(alloc),
        }
    }

    // The first node that stands on a cycle, where these ranks tell it.
    fn told_by(&self, alloc: Global, ranks: &[usize]) -> Result<Option<Option<u32>>, AllocError>
        ensures { IfOk result (λ told. IfSome told (λ found. found ≡ find (is_on_cycle self.now) (numbers (length self.now)))) }
    {
        if !self.never_falls(ranks) {
            return Ok(None);
        }
        let Some(node) = self.first_not_risen(ranks) else {
            return Ok(Some(None));
        };
        if self.is_on_cycle(alloc, node)? {
            Ok(Some(Some(node)))
        } else {
            Ok(None)
        }
    }

    // The first node of which not each link leads to a higher rank.
    fn first_not_risen(&self, ranks: &[usize]) -> Option<u32>
        ensures first { result ≡ find (λ node. not (is_risen self.now ranks.now node)) (numbers (length self.now)) }
        ensures known { IfSome result (λ node. node < length self.now) }
    {
        for node in 0..self.count() {
            if !self.is_risen(node, ranks) {
                return Some(node);
            }
        }
        None
    }

    // The first node that stands on a cycle, by a search from each node.
    fn search_each(&self, alloc: Global) -> Result<Option<u32>, AllocError>
        ensures { IfOk result (λ found. found ≡ find (is_on_cycle self.now) (numbers (length self.now))) }
    {
        for node in 0..self.count() {
            if self.is_on_cycle(alloc, node)? {
                return Ok(Some(node));
            }
        }
        Ok(None)
    }

    // Whether a node stands on a cycle: whether it is found below itself.
    fn is_on_cycle(&self, alloc: Global, node: u32) -> Result<bool, AllocError>
        requires { node < length self.now }
        ensures { IfOk result (λ found. found ≡ is_on_cycle self.now node) }
    {
        let mut search = Search {
            start: node,
            found: no_marks(alloc, self.count() as usize)?,
            queue: Vec::new(alloc),
        };
        self.pass(node, &mut search)?;
        for place in 0..self.count() {
            self.pass_next(place, &mut search)?;
        }
        Ok(search.found[node as usize])
    }

    // Passes the node at this place of the queue, if there is one.
    fn pass_next(&self, place: u32, search: &mut Search) -> Result<(), AllocError>
        requires search { IsSearch self.now place search.old }
        ensures search { OnOk result (IsSearch self.now (place + 1) search.new) }
        ensures start { OnOk result (search.new.start ≡ search.old.start) }
    {
        if (place as usize) >= search.queue.len() {
            return Ok(());
        }
        let node = search.queue[place as usize];
        self.pass(node, search)?;
        Ok(())
    }

    // Passes a node: those below it are found.
    fn pass(&self, node: u32, search: &mut Search) -> Result<(), AllocError>
        requires inside { node < length self.now }
        requires marks { length search.old.found.items ≡ length self.now }
        ensures { OnOk result (PassesNode self.now node search.old search.new) }
    {
        for lower in self.below(node) {
            search.note(*lower)?;
        }
        Ok(())
    }
}

impl Search {
    // Puts a node that wasn't found before at the end of the queue.
    fn note(&mut self, node: u32) -> Result<(), AllocError>
        requires { node < length self.old.found.items }
        ensures { OnOk result (NotesFound node self.old self.new) }
    {
        if !self.found[node as usize] {
            self.found[node as usize] = true;
            self.queue.push(node)?;
        }
        Ok(())
    }
}

// So many marks, none of which is set.
fn no_marks(alloc: Global, count: usize) -> Result<Vec<bool>, AllocError>
    ensures { IfOk result (λ marks. marks.items ≡ replicate count false) }
{
    let mut marks = Vec::new(alloc);
    for _node in 0..count {
        marks.push(false)?;
    }
    Ok(marks)
}
