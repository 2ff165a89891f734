//! `LiteMemoryNode`, seen in clauses as its state and its takes and puts of the round.

ghost use Rattle.std.specs.Prelude.{◌≡◌, IsTrue};
ghost use Rattle.lite_memory_node.specs.LiteMemoryTable.{lite_memory_table};
ghost use Rattle.memory_node.specs.MemoryState.{IsMemory, memory_byte};
ghost use Rattle.memory_node.specs.MemoryTable.{CanMemory};

use axi_link::{Link, Out};
use memory_node::MemoryNode;
use node_core::Step;
use std::marker::{Model, Send, Sync};

/// A memory at the lower end of an AXI4-Lite link.
#[derive(Drop)]
pub struct LiteMemoryNode {
    memory: MemoryNode,
}

impl Model for LiteMemoryNode {
    ghost use Rattle.node_core.specs.Acted.{Acted};
    ghost use Rattle.memory_node.specs.MemoryState.{MemoryState};

    ghost Value = { Acted MemoryState };

    ghost use Rattle.lite_memory_node.specs.LiteMemoryInside.{lite_memory_view};

    ghost view = { lite_memory_view };
}

impl LiteMemoryNode {
    /// A Lite memory that is this memory, below an AXI4-Lite link.
    pub fn new(memory: MemoryNode) -> LiteMemoryNode
        ensures { result ≡ memory }
    {
        LiteMemoryNode { memory }
    }

    /// The byte at an address; None exactly outside the memory.
    pub fn byte(&self, addr: u64) -> Option<u8>
        ensures { result ≡ memory_byte self.now.state addr }
    {
        self.memory.byte(addr)
    }

    /// Whether its link is among these, and offers what may come to it: requests for legal bursts, writes on
    /// lines that it keeps, and strobes on lanes of its bus.
    pub fn can_decide(&self, links: &[Link]) -> bool
        ensures { IsTrue result → CanMemory links.now self.now.state }
    {
        self.memory.can_decide(links)
    }
}

impl Step for LiteMemoryNode {
    ghost can = { λ round links node. CanMemory links node.state };

    ghost table = { λ round links node. lite_memory_table links node.state };

    ghost moves = { λ node. node.out };

    ghost fact = { λ node. IsMemory node.state };

    fn decide(&mut self, round: u64, links: &[Link]) {
        self.memory.decide(round, links);
    }

    fn out(&self) -> &Out {
        self.memory.out()
    }
}

fn crosses<T: Send + Sync>(_value: &T) {}

/// A Lite memory may be sent to another thread, and lent to one.
pub fn crosses_threads(memory: &LiteMemoryNode) {
    crosses(memory);
}
