//! `MemoryNode`, seen in clauses as its state and its takes and puts of the round.

ghost use Rattle.std.specs.Prelude.{◌≡◌, ◌<◌, ◌≤◌, All, AllPairs, IfOk, IsTrue, length};
ghost use Rattle.memory_node.specs.MemoryArea.{IsMemoryArea, area_of};
ghost use Rattle.memory_node.specs.MemoryState.{IsMemory, memory_byte, new_memory};
ghost use Rattle.memory_node.specs.MemoryTable.{CanMemory, memory_table};
ghost use Rattle.node_core.specs.Acted.{opened};

use crate::area::Area;
use crate::config::{MemoryConfig, Range};
use crate::offers::{can_be_done, has_its_lines, is_on_bus};
use crate::rows::{put_r, take_w};
use crate::store::ByteStore;
use axi_beats::NoMemory;
use axi_link::{Link, Out};
use flight::Flight;
use node_core::{Paces, Step, link_at};
use std::alloc::Global;
use std::marker::{Model, Send, Sync};
use subordinate::{ReadEntry, WriteEntry, put_b, take_ar, take_aw, wanted};

/// A memory at the lower end of a link.
#[derive(Drop)]
pub struct MemoryNode {
    area: Area,
    // The number of the link above it.
    upper: u32,
    paces: Paces,
    // The requests that are taken and not answered, the oldest ones first.
    writes: Flight<WriteEntry>,
    reads: Flight<ReadEntry>,
    store: ByteStore,
    out: Out,
}

impl Model for MemoryNode {
    ghost use Rattle.node_core.specs.Acted.{Acted};
    ghost use Rattle.memory_node.specs.MemoryState.{MemoryState};

    ghost Value = { Acted MemoryState };

    ghost use Rattle.memory_node.specs.MemoryInside.{memory_view, IsMemoryInside};

    ghost view = { memory_view };

    ghost invariant = { IsMemoryInside };
}

impl MemoryNode {
    /// A memory below link `upper` that nothing has asked yet, whose bytes all have the fill value. The
    /// bytes of `read_only` can't be written and those of `hole` can't be read: both are ranges of whole
    /// lines of 128 bytes in the memory. `accept` and `give` are 1 to 64 delays of 0 to 63 rounds for what
    /// is taken and for what is put. `touched` are the numbers of the 128-byte lines that may be written,
    /// ascending: the addresses divided by 128. All memory is taken here.
    ///
    /// # Errors
    ///
    /// `NoMemory` where there isn't enough.
    pub fn new(
        alloc: Global,
        config: MemoryConfig,
        read_only: &[Range],
        hole: &[Range],
        accept: &[u8],
        give: &[u8],
        upper: u32,
        touched: &[u64],
    ) -> Result<MemoryNode, NoMemory>
        requires area { IsMemoryArea (area_of config read_only.now hole.now) }
        requires some_accept { 0 < length accept.now }
        requires most_accept { length accept.now ≤ 64 }
        requires short_accept { All (λ delay. delay < 64) accept.now }
        requires some_give { 0 < length give.now }
        requires most_give { length give.now ≤ 64 }
        requires short_give { All (λ delay. delay < 64) give.now }
        requires touched { AllPairs (λ a b. a < b) touched.now }
        ensures { IfOk result (λ memory. memory ≡ opened (new_memory (area_of config read_only.now hole.now) accept.now give.now upper touched.now)) }
    {
        Ok(MemoryNode {
            area: Area::new(alloc, config, read_only, hole)?,
            upper,
            paces: Paces::new(accept, give),
            writes: Flight::new(),
            reads: Flight::new(),
            store: ByteStore::new(alloc, touched, config.fill)?,
            out: Out::default(),
        })
    }

    /// The byte at an address; None exactly outside the memory.
    pub fn byte(&self, addr: u64) -> Option<u8>
        ensures { result ≡ memory_byte self.now.state addr }
    {
        if self.area.is_inside(addr) {
            Some(self.store.byte_at(addr))
        } else {
            None
        }
    }

    /// Whether its link is among these, and offers what may come to it: requests for legal bursts, writes on
    /// lines that it keeps, and strobes on lanes of its bus.
    pub fn can_decide(&self, links: &[Link]) -> bool
        ensures { IsTrue result → CanMemory links.now self.now.state }
    {
        if self.upper as usize >= links.len() {
            return false;
        }
        let link = link_at(links, self.upper);
        let bus = self.area.bus();
        can_be_done(link.head_aw(), bus)
            && has_its_lines(link.head_aw(), &self.area, &self.store)
            && can_be_done(link.head_ar(), bus)
            && is_on_bus(link.head_w(), bus)
    }

    /// Does each row of the table.
    fn act(&mut self, links: &[Link])
        requires { CanMemory links.now self.old.state }
        ensures table { self.new ≡ memory_table links.now self.old.state }
        ensures fact { IsMemory self.new.state }
    {
        let number = self.upper;
        let link = link_at(links, number);
        let rows = self.paces.ask(&wanted(link, &self.writes, &self.reads));
        put_b(&mut self.out.b_put, number, rows.b, &mut self.writes);
        put_r(
            &mut self.out.r_put,
            number,
            rows.r,
            &self.area,
            &mut self.reads,
            &self.store,
        );
        take_w(
            &mut self.out.w_take,
            number,
            rows.w,
            link.head_w(),
            &self.area,
            &mut self.writes,
            &mut self.store,
        );
        take_aw(
            &mut self.out.aw_take,
            number,
            rows.aw,
            link.head_aw(),
            &mut self.writes,
        );
        take_ar(
            &mut self.out.ar_take,
            number,
            rows.ar,
            link.head_ar(),
            &mut self.reads,
        );
    }
}

impl Step for MemoryNode {
    ghost can = { λ round links node. CanMemory links node.state };

    ghost table = { λ round links node. memory_table links node.state };

    ghost moves = { λ node. node.out };

    ghost fact = { λ node. IsMemory node.state };

    #[tactic(auto, using(crate::proofs::TableLemmas::memory_fits))]
    fn decide(&mut self, _round: u64, links: &[Link]) {
        self.act(links);
    }

    fn out(&self) -> &Out {
        &self.out
    }
}

fn crosses<T: Send + Sync>(_value: &T) {}

/// A memory may be sent to another thread, and lent to one.
pub fn crosses_threads(memory: &MemoryNode) {
    crosses(memory);
}
