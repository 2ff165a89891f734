//! Writes whose address or whose last W beat was transferred, and that have no response, for rule 11,
//! and for rule 6 of AXI4-Lite, where all IDs are 0 and each W beat is a last one.
//! (Arm IHI 0022, dependencies between channel handshake signals.)
ghost use Rattle.std.specs.Prelude.{◌≡◌, ◌+◌, ◌-◌, ◌<◌, ◌≤◌, ◌^◌, ◌∷◌, ◌++◌, [], ◌==◌, length, Option, None, OnOk, if◌then◌else◌, vec_len, vec_capacity, nat_lt, take, drop, position};
ghost use Rattle.std.specs.VecDeque.{deque_len, deque_capacity};
ghost use Rattle.port_rules.specs.KeptFaults.{lite_response_fault};
ghost use Rattle.port_rules.specs.OpenWrites.{response_fault, without_first};

use axi_beats::NoMemory;
use axi_history::RawB;
use std::alloc::Global;
use std::collections::VecDeque;

/// The n-th last W beat belongs to the n-th address. What is kept are those that were transferred
/// before the other, and the *whole* writes: those of which both were.
#[derive(Drop)]
pub(crate) struct Writes {
    /// The IDs of the addresses whose last W beat wasn't transferred, oldest first.
    issued: VecDeque<u32>,
    /// How many last W beats were transferred whose address wasn't.
    surplus: u32,
    /// The IDs of the whole writes that wait for their response.
    whole: Vec<u32>,
}

impl Writes {
    /// Nothing was transferred. It takes no memory.
    pub(crate) fn new(alloc: Global) -> Writes
        ensures issued { result.issued.items ≡ [] }
        ensures surplus { result.surplus ≡ 0 }
        ensures whole { result.whole.items ≡ [] }
    {
        Writes {
            issued: VecDeque::new(alloc),
            surplus: 0,
            whole: Vec::new(alloc),
        }
    }

    /// Makes room for one round. A round makes one write whole at most, as addresses and last W beats
    /// never lack each other at once; with room for two nothing need be said of that.
    pub(crate) fn reserve(&mut self) -> Result<(), NoMemory>
        ensures issued { self.new.issued.items ≡ self.old.issued.items }
        ensures surplus { self.new.surplus ≡ self.old.surplus }
        ensures whole { self.new.whole.items ≡ self.old.whole.items }
        ensures issued_room { OnOk result
            (deque_len self.new.issued < deque_capacity self.new.issued) }
        ensures whole_room { OnOk result
            (vec_len self.new.whole + 2 ≤ vec_capacity self.new.whole) }
    {
        self.issued.reserve(1)?;
        self.whole.reserve(2)?;
        Ok(())
    }

    /// The least of rules 8 and 11 that a response breaks.
    pub(crate) fn fault(&self, b: &RawB) -> Option<u8>
        ensures { result ≡ response_fault self.now.whole.items b.now }
    {
        if b.resp == 1 {
            Some(8)
        } else if self.place(b.id).is_none() {
            Some(11)
        } else {
            None
        }
    }

    /// The least of rules 4, 5 and 6 that a response on an AXI4-Lite port breaks.
    pub(crate) fn lite_fault(&self, b: &RawB) -> Option<u8>
        ensures { result ≡ lite_response_fault self.now.whole.items b.now }
    {
        if b.id != 0 {
            Some(4)
        } else if b.resp == 1 {
            Some(5)
        } else if self.whole.is_empty() {
            Some(6)
        } else {
            None
        }
    }

    /// The place of the first whole write of an ID.
    fn place(&self, id: u32) -> Option<usize>
        ensures { result ≡ position (λ other. other == id) self.now.whole.items }
    {
        self.whole.iter().position(|other| *other == id)
    }

    /// An address was transferred.
    pub(crate) fn address(&mut self, id: u32)
        requires issued { deque_len self.old.issued < deque_capacity self.old.issued }
        requires whole { vec_len self.old.whole < vec_capacity self.old.whole }
        ensures issued { self.new.issued.items ≡
            (if nat_lt 0 self.old.surplus
            then self.old.issued.items
            else self.old.issued.items ++ id ∷ []) }
        ensures surplus { self.new.surplus ≡ self.old.surplus - 1 }
        ensures whole { self.new.whole.items ≡
            (if nat_lt 0 self.old.surplus
            then self.old.whole.items ++ id ∷ []
            else self.old.whole.items) }
        ensures room { vec_capacity self.new.whole ≡ vec_capacity self.old.whole }
        ensures length { vec_len self.new.whole ≤ vec_len self.old.whole + 1 }
    {
        if self.surplus > 0 {
            self.surplus -= 1;
            self.whole.push_reserved(id);
        } else {
            self.issued.push_back_reserved(id);
        }
    }

    /// A last W beat was transferred.
    pub(crate) fn last_beat(&mut self)
        requires whole { vec_len self.old.whole < vec_capacity self.old.whole }
        requires surplus { self.old.surplus + 1 < 2 ^ 32 }
        ensures issued { self.new.issued.items ≡ drop 1 self.old.issued.items }
        ensures surplus { self.new.surplus ≡
            (if length self.old.issued.items == 0 then self.old.surplus + 1 else self.old.surplus) }
        ensures whole { self.new.whole.items ≡
            self.old.whole.items ++ take 1 self.old.issued.items }
        ensures room { vec_capacity self.new.whole ≡ vec_capacity self.old.whole }
        ensures length { vec_len self.new.whole ≤ vec_len self.old.whole + 1 }
        ensures issued_room { deque_capacity self.new.issued ≡ deque_capacity self.old.issued }
        ensures issued_length { deque_len self.new.issued ≤ deque_len self.old.issued }
    {
        match self.issued.pop_front() {
            Some(id) => self.whole.push_reserved(id),
            None => self.surplus += 1,
        }
    }

    /// A response was transferred: it belongs to the oldest whole write of its ID.
    #[tactic(auto, using(crate::proofs::PlaceLemmas::id_removed, crate::proofs::PlaceLemmas::id_absent,))]
    pub(crate) fn response(&mut self, id: u32)
        ensures issued { self.new.issued.items ≡ self.old.issued.items }
        ensures surplus { self.new.surplus ≡ self.old.surplus }
        ensures whole { self.new.whole.items ≡ without_first id self.old.whole.items }
        ensures room { vec_capacity self.new.whole ≡ vec_capacity self.old.whole }
        ensures length { vec_len self.new.whole ≤ vec_len self.old.whole }
        ensures issued_room { deque_capacity self.new.issued ≡ deque_capacity self.old.issued }
        ensures issued_length { deque_len self.new.issued ≡ deque_len self.old.issued }
    {
        if let Some(place) = self.place(id) {
            let _answered = self.whole.remove(place);
        }
    }

    /// How many writes have an address without a response.
    pub(crate) fn unanswered(&self) -> u32
        requires { length self.now.issued.items + length self.now.whole.items < 2 ^ 32 }
        ensures { result ≡ length self.now.issued.items + length self.now.whole.items }
    {
        (self.issued.len() + self.whole.len()) as u32
    }
}
