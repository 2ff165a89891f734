//! The nodes of an accepted document, by their numbers from 0. A clause sees a wiring as their list.

ghost use Rattle.std.specs.Prelude.{◌≡◌, ◌<◌, ◌≤◌, length};
ghost use Rattle.topology.specs.Document.{DocumentNode, link_kind_of, node_at, targets_of, uppers_of};
ghost use Rattle.topology.specs.Refused.{IsAccepted};
ghost use Rattle.topology.specs.Wiring.{IsWired, manager_named, region_lists, regions_of};
ghost use Rattle.topology_text.specs.Formed.{AreFormed};

use crate::link::LinkKind;
use address_map::Region;
use node_graph::NodeGraph;
use std::marker::Model;
use topology_text::{Kind, Node, Span};

/// The nodes of an accepted document, with their keys, and what is found of them once: the nodes above
/// and below each, the links below it, and the targets of its regions.
#[derive(Debug, Drop)]
pub struct Wiring {
    nodes: Vec<Node>,
    graph: NodeGraph,
    links: Vec<LinkKind>,
    regions: Vec<Vec<Region>>,
}

impl Model for Wiring {
    ghost use Rattle.std.specs.Prelude.{List};
    ghost use Rattle.topology.specs.Document.{DocumentNode};
    ghost use Rattle.topology.specs.Wiring.{IsWired, region_lists};

    ghost Value = { List DocumentNode };

    ghost view = { λ wiring. wiring.nodes.items };

    ghost invariant = { λ wiring. IsWired wiring.nodes.items wiring.graph wiring.links.items (region_lists wiring.regions.items) };
}

impl Wiring {
    /// The wiring of these nodes.
    pub(crate) fn new(
        nodes: Vec<Node>,
        graph: NodeGraph,
        links: Vec<LinkKind>,
        regions: Vec<Vec<Region>>,
    ) -> Wiring
        requires { IsWired nodes.items graph links.items (region_lists regions.items) }
        ensures { result ≡ nodes.items }
    {
        Wiring {
            nodes,
            graph,
            links,
            regions,
        }
    }

    /// The number of nodes, at most 256. The document is accepted, and the keys of each node are within
    /// their limits.
    pub fn count(&self) -> u32
        ensures count { result ≡ length self.now }
        ensures few { length self.now ≤ 256 }
        ensures accepted { IsAccepted self.now }
        ensures formed { AreFormed self.now }
    {
        self.graph.count()
    }

    // The number of nodes, and nothing else of them.
    fn len(&self) -> u32
        ensures { result ≡ length self.now }
    {
        self.graph.count()
    }

    /// The node's name.
    pub fn name(&self, node: u32) -> &str
        requires { node < length self.now }
        ensures { result.now ≡ (node_at self.now node).name }
    {
        self.node(node).name()
    }

    /// What the node is.
    pub fn kind(&self, node: u32) -> Kind
        requires { node < length self.now }
        ensures { result ≡ (node_at self.now node).kind }
    {
        self.node(node).kind()
    }

    /// Its key `bus`, in bytes; 0 for a kind without it.
    pub fn bus(&self, node: u32) -> u8
        requires { node < length self.now }
        ensures { result ≡ (node_at self.now node).bus }
    {
        self.node(node).bus()
    }

    /// Its key `id_width`, in bits; 0 for a kind without it.
    pub fn id_width(&self, node: u32) -> u8
        requires { node < length self.now }
        ensures { result ≡ (node_at self.now node).id_width }
    {
        self.node(node).id_width()
    }

    /// Its key `depth`: how many beats each queue of a link below it has room for; 0 for a kind without
    /// it.
    pub fn depth(&self, node: u32) -> u8
        requires { node < length self.now }
        ensures { result ≡ (node_at self.now node).depth }
    {
        self.node(node).depth()
    }

    /// Its key `base`: the lowest address of a memory; 0 for another kind.
    pub fn base(&self, node: u32) -> u64
        requires { node < length self.now }
        ensures { result ≡ (node_at self.now node).base }
    {
        self.node(node).base()
    }

    /// Its key `size`: the number of bytes of a memory; 0 for another kind.
    pub fn size(&self, node: u32) -> u64
        requires { node < length self.now }
        ensures { result ≡ (node_at self.now node).size }
    {
        self.node(node).size()
    }

    /// Its key `fill`: what a memory's bytes are at first; 0 for another kind.
    pub fn fill(&self, node: u32) -> u8
        requires { node < length self.now }
        ensures { result ≡ (node_at self.now node).fill }
    {
        self.node(node).fill()
    }

    /// Its key `accept`, in rounds; empty for a kind without it.
    pub fn accept(&self, node: u32) -> &[u8]
        requires { node < length self.now }
        ensures { result.now ≡ (node_at self.now node).accept }
    {
        self.node(node).accept()
    }

    /// Its key `give`, in rounds; empty for a kind without it.
    pub fn give(&self, node: u32) -> &[u8]
        requires { node < length self.now }
        ensures { result.now ≡ (node_at self.now node).give }
    {
        self.node(node).give()
    }

    /// Its key `read_only`: the ranges of a memory that may not be written; empty for another kind.
    pub fn read_only(&self, node: u32) -> &[Span]
        requires { node < length self.now }
        ensures { result.now ≡ (node_at self.now node).read_only }
    {
        self.node(node).read_only()
    }

    /// Its key `hole`: the ranges of a memory that may not be read; empty for another kind.
    pub fn hole(&self, node: u32) -> &[Span]
        requires { node < length self.now }
        ensures { result.now ≡ (node_at self.now node).hole }
    {
        self.node(node).hole()
    }

    /// The regions of a demux or crossbar in the order of the document, each with its target as its
    /// port; empty for another kind.
    pub fn regions(&self, node: u32) -> &[Region]
        requires { node < length self.now }
        ensures { result.now ≡ regions_of self.now (node_at self.now node) }
    {
        &self.regions[node as usize]
    }

    /// The nodes below a node, in order of port.
    pub fn targets(&self, node: u32) -> &[u32]
        requires { node < length self.now }
        ensures { result.now ≡ targets_of self.now (node_at self.now node) }
    {
        self.graph.below(node)
    }

    /// The nodes above a node, in order of number: its inputs.
    pub fn uppers(&self, node: u32) -> &[u32]
        requires { node < length self.now }
        ensures { result.now ≡ uppers_of self.now node }
    {
        self.graph.above(node)
    }

    /// What each link below a node is.
    pub fn link(&self, node: u32) -> LinkKind
        requires { node < length self.now }
        ensures { result ≡ link_kind_of self.now node }
    {
        self.links[node as usize]
    }

    /// The manager of this name.
    pub fn manager(&self, name: &str) -> Option<u32>
        ensures { result ≡ manager_named self.now name.now }
    {
        for node in 0..self.len() {
            if self.kind(node) == Kind::Manager && self.name(node) == name {
                return Some(node);
            }
        }
        None
    }

    // The node of this number.
    fn node(&self, node: u32) -> &Node
        requires { node < length self.now }
        ensures { result.now ≡ node_at self.now node }
    {
        &self.nodes[node as usize]
    }
}
