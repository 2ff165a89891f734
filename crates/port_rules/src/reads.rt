//! Reads that aren't answered in full, for rules 11 and 12, and for rule 6 of AXI4-Lite. (Arm IHI 0022,
//! read data channel and transaction identifiers.)
ghost use Rattle.std.specs.Prelude.{◌≡◌, ◌+◌, ◌<◌, ◌≤◌, ◌^◌, ◌∷◌, ◌++◌, [], ◌==◌, length, position, Option, None, OnOk, vec_len, vec_capacity};
ghost use Rattle.port_rules.specs.KeptFaults.{lite_read_fault};
ghost use Rattle.port_rules.specs.OpenReads.{beats_lacking, new_read, read_fault, with_beat_of};

use axi_beats::NoMemory;
use axi_history::{RawAddr, RawR};
use std::alloc::Global;

/// A read, and how many beats of its answer weren't transferred, from 1 to 256.
#[derive(Clone, Copy, Debug, PartialEq, Eq)]
pub(crate) struct Read {
    id: u32,
    left: u32,
}

/// The reads whose last beat wasn't transferred, oldest first.
#[derive(Drop)]
pub(crate) struct Reads {
    reads: Vec<Read>,
}

impl Reads {
    /// No read was asked for. It takes no memory.
    pub(crate) fn new(alloc: Global) -> Reads
        ensures { result.reads.items ≡ [] }
    {
        Reads {
            reads: Vec::new(alloc),
        }
    }

    /// Makes room for one round.
    pub(crate) fn reserve(&mut self) -> Result<(), NoMemory>
        ensures reads { self.new.reads.items ≡ self.old.reads.items }
        ensures room { OnOk result (vec_len self.new.reads < vec_capacity self.new.reads) }
    {
        self.reads.reserve(1)?;
        Ok(())
    }

    /// The least of rules 8, 11 and 12 that a read beat breaks.
    pub(crate) fn fault(&self, r: &RawR) -> Option<u8>
        ensures { result ≡ read_fault self.now.reads.items r.now }
    {
        if r.resp == 1 {
            return Some(8);
        }
        match self.left(r.id) {
            None => Some(11),
            Some(left) if r.last != (left == 1) => Some(12),
            Some(_) => None,
        }
    }

    /// The least of rules 4, 5 and 6 that a read beat on an AXI4-Lite port breaks.
    pub(crate) fn lite_fault(&self, r: &RawR) -> Option<u8>
        ensures { result ≡ lite_read_fault self.now.reads.items r.now }
    {
        if r.id != 0 || !r.last {
            Some(4)
        } else if r.resp == 1 {
            Some(5)
        } else if self.reads.is_empty() {
            Some(6)
        } else {
            None
        }
    }

    /// The place of the oldest read of an ID.
    fn place(&self, id: u32) -> Option<usize>
        ensures { result ≡ position (λ read. read.id == id) self.now.reads.items }
    {
        self.reads.iter().position(|read| read.id == id)
    }

    /// How many beats are left of the oldest read of an ID.
    #[tactic(auto, using(crate::proofs::PlaceLemmas::left_at, crate::proofs::PlaceLemmas::left_nowhere,))]
    fn left(&self, id: u32) -> Option<u32>
        ensures { result ≡ beats_lacking id self.now.reads.items }
    {
        let place = self.place(id)?;
        Some(self.reads[place].left)
    }

    /// An address was transferred.
    pub(crate) fn address(&mut self, a: &RawAddr)
        requires { vec_len self.old.reads < vec_capacity self.old.reads }
        ensures { self.new.reads.items ≡ self.old.reads.items ++ new_read a.now ∷ [] }
    {
        self.reads.push_reserved(Read {
            id: a.id,
            left: u32::from(a.len) + 1,
        });
    }

    /// A read beat was transferred: it belongs to the oldest read of its ID.
    #[tactic(auto, using(crate::proofs::PlaceLemmas::read_removed, crate::proofs::PlaceLemmas::read_counted, crate::proofs::PlaceLemmas::read_absent,))]
    pub(crate) fn beat(&mut self, id: u32)
        ensures reads { self.new.reads.items ≡ with_beat_of id self.old.reads.items }
        ensures room { vec_capacity self.new.reads ≡ vec_capacity self.old.reads }
        ensures length { vec_len self.new.reads ≤ vec_len self.old.reads }
    {
        let Some(place) = self.place(id) else {
            return;
        };
        let left = self.reads[place].left;
        if left <= 1 {
            let _answered = self.reads.remove(place);
        } else {
            self.reads[place] = Read { id, left: left - 1 };
        }
    }

    /// How many reads have an address without a last beat.
    pub(crate) fn unanswered(&self) -> u32
        requires { length self.now.reads.items < 2 ^ 32 }
        ensures { result ≡ length self.now.reads.items }
    {
        self.reads.len() as u32
    }
}
