//! `Node`, seen in clauses as its kind's own node.

ghost use Rattle.std.specs.Prelude.{◌≡◌};
ghost use Rattle.net_kinds.specs.NodeTable.{node_done};

use axi_link::{Link, Out};
use demux_node::DemuxNode;
use error_node::ErrorNode;
use lite_memory_node::LiteMemoryNode;
use lite_node::LiteNode;
use manager_node::ManagerNode;
use memory_node::MemoryNode;
use mux_node::MuxNode;
use node_core::Step;
use remap_node::RemapNode;
use slice_node::SliceNode;
use split_node::SplitNode;
use std::marker::{Send, Sync};
use up_node::UpNode;

/// A node of a network.
#[derive(Drop)]
pub enum Node {
    /// Between two links, where it passes every beat on a round later.
    Slice(SliceNode),
    /// Above several links, of which it chooses one by the address.
    Demux(Box<DemuxNode>),
    /// Below one link: it answers each transaction with DECERR.
    Error(Box<ErrorNode>),
    /// Below several links, which it joins into the one below it.
    Mux(MuxNode),
    /// Between two links, of which the lower one has IDs of its own.
    Remap(Box<RemapNode>),
    /// Between two links, of which the lower one has a wider bus.
    Up(Box<UpNode>),
    /// Between two links, of which the lower one carries single beats.
    Split(Box<SplitNode>),
    /// Between an AXI4 link and an AXI4-Lite link below it.
    Lite(Box<LiteNode>),
    /// Above one link: it issues the transactions of its script.
    Manager(Box<ManagerNode>),
    /// Below one link: it answers from bytes that it keeps.
    Memory(Box<MemoryNode>),
    /// Below one AXI4-Lite link: it answers whole words from bytes that it keeps.
    LiteMemory(Box<LiteMemoryNode>),
}

impl Step for Node {
    ghost use Rattle.net_kinds.specs.NodeTable.{CanNode, node_fact, node_out, node_table};

    ghost can = { CanNode };

    ghost table = { node_table };

    ghost moves = { node_out };

    ghost fact = { node_fact };

    fn decide(&mut self, round: u64, links: &[Link]) {
        match self {
            Node::Slice(slice) => slice.decide(round, links),
            Node::Demux(demux) => demux.decide(round, links),
            Node::Error(error) => error.decide(round, links),
            Node::Mux(mux) => mux.decide(round, links),
            Node::Remap(remap) => remap.decide(round, links),
            Node::Up(up) => up.decide(round, links),
            Node::Split(splitter) => splitter.decide(round, links),
            Node::Lite(bridge) => bridge.decide(round, links),
            Node::Manager(manager) => manager.decide(round, links),
            Node::Memory(memory) => memory.decide(round, links),
            Node::LiteMemory(memory) => memory.decide(round, links),
        }
    }

    fn out(&self) -> &Out {
        match self {
            Node::Slice(slice) => slice.out(),
            Node::Demux(demux) => demux.out(),
            Node::Error(error) => error.out(),
            Node::Mux(mux) => mux.out(),
            Node::Remap(remap) => remap.out(),
            Node::Up(up) => up.out(),
            Node::Split(splitter) => splitter.out(),
            Node::Lite(bridge) => bridge.out(),
            Node::Manager(manager) => manager.out(),
            Node::Memory(memory) => memory.out(),
            Node::LiteMemory(memory) => memory.out(),
        }
    }
}

impl Node {
    /// Whether it waits for no answer.
    pub fn done(&self) -> bool
        ensures { result ≡ node_done self.now }
    {
        match self {
            Node::Manager(manager) => manager.done(),
            Node::Slice(_) => true,
            Node::Demux(_) => true,
            Node::Error(_) => true,
            Node::Mux(_) => true,
            Node::Remap(_) => true,
            Node::Up(_) => true,
            Node::Split(_) => true,
            Node::Lite(_) => true,
            Node::Memory(_) => true,
            Node::LiteMemory(_) => true,
        }
    }
}

fn crosses<T: Send + Sync>(_value: &T) {}

/// A node may be sent to another thread, and lent to one.
pub fn crosses_threads(node: &Node) {
    crosses(node);
}
