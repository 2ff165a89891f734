//! W beats, and the addresses that they belong to, for rules 9 and 10.
ghost use Rattle.std.specs.Prelude.{◌≡◌, ◌<◌, ◌≤◌, ◌∷◌, ◌&&◌, [], true, Option, None, is_some, IsSome, IfSome, IfNone, OnOk};
ghost use Rattle.std.specs.Option.{ForSome, option_to_list};
ghost use Rattle.std.specs.VecDeque.{deque_len, deque_capacity};
ghost use Rattle.axi_beats.specs.Bus.{IsBusWidth};
ghost use Rattle.axi_history.specs.PortRules.{has_last_where_due, has_strobes_on_valid_lanes};
ghost use Rattle.port_rules.specs.Kept.{unpaired_in};
ghost use Rattle.port_rules.specs.Unpaired.{is_usable, unpaired_of, each_paired_beat, with_offers, data_fault, last_is_kept, strobes_are_kept};

use crate::address::{last_fits, strobes_fit};
use crate::state::Bursts;
use axi_beats::{NoMemory, WBeat};
use axi_history::RawAddr;
use std::alloc::Global;
use std::collections::VecDeque;

impl Bursts {
    /// Nothing was offered on a bus of this many bytes. It takes no memory.
    pub(crate) fn new(alloc: Global, bus: u8) -> Bursts
        requires { IsBusWidth bus }
        ensures bus { result.bus ≡ bus }
        ensures nothing { unpaired_in result ≡ record { addresses = []; passed = 0; beats = [] } }
    {
        Bursts {
            bus,
            addresses: VecDeque::new(alloc),
            passed: 0,
            beats: VecDeque::new(alloc),
        }
    }

    /// Makes room for one more address and one more beat.
    pub(crate) fn reserve(&mut self) -> Result<(), NoMemory>
        ensures bus { self.new.bus ≡ self.old.bus }
        ensures same { unpaired_in self.new ≡ unpaired_in self.old }
        ensures address_room { OnOk result
            (deque_len self.new.addresses < deque_capacity self.new.addresses) }
        ensures beat_room { OnOk result (deque_len self.new.beats < deque_capacity self.new.beats) }
    {
        self.addresses.reserve(1)?;
        self.beats.reserve(1)?;
        Ok(())
    }

    /// Adds the address and the W beat that a round offers anew, and answers the least of rules 9
    /// and 10 that is broken by them.
    pub(crate) fn add(&mut self, aw: &Option<RawAddr>, w: &Option<WBeat>) -> Option<u8>
        requires usable { ForSome aw.now (λ a. is_usable self.old.bus a ≡ true) }
        requires address_room { deque_len self.old.addresses < deque_capacity self.old.addresses }
        requires beat_room { deque_len self.old.beats < deque_capacity self.old.beats }
        ensures bus { self.new.bus ≡ self.old.bus }
        ensures fault { result ≡ data_fault self.old.bus aw.now w.now (unpaired_in self.old) }
        ensures kept { IfNone result
            (unpaired_in self.new ≡ with_offers aw.now w.now (unpaired_in self.old)) }
    {
        let Some(early) = self.add_address(aw) else {
            return Some(9);
        };
        let Some(now) = self.add_beat(w) else {
            return Some(9);
        };
        if early && now { None } else { Some(10) }
    }

    /// Adds the address of a round, if there is a new one. Answers whether the beats that came before
    /// it keep rule 10, or None where they break rule 9.
    fn add_address(&mut self, aw: &Option<RawAddr>) -> Option<bool>
        requires usable { ForSome aw.now (λ a. is_usable self.old.bus a ≡ true) }
        requires room { deque_len self.old.addresses < deque_capacity self.old.addresses }
        ensures bus { self.new.bus ≡ self.old.bus }
        ensures last { is_some result ≡ last_is_kept aw.now None (unpaired_in self.old) }
        ensures strobes { IfSome result (λ kept. kept ≡
            strobes_are_kept self.old.bus aw.now None (unpaired_in self.old)) }
        ensures kept { IsSome result →
            unpaired_in self.new ≡ with_offers aw.now None (unpaired_in self.old) }
        ensures room { deque_capacity self.new.beats ≡ deque_capacity self.old.beats }
        ensures length { deque_len self.new.beats ≤ deque_len self.old.beats }
    {
        let Some(a) = aw else {
            return Some(true);
        };
        if self.addresses.is_empty() {
            return self.settle(a, 0, true);
        }
        self.addresses.push_back_reserved(*a);
        Some(true)
    }

    /// Gives an address, from its beat `n` on, the beats that have none. `strobes` says whether the
    /// strobes of the earlier beats are right, and so does the answer of them all, or None where a
    /// beat breaks rule 9. No beat follows such a one, so that this goes no deeper than a burst has
    /// beats.
    fn settle(&mut self, a: &RawAddr, n: u32, strobes: bool) -> Option<bool>
        requires usable { is_usable self.old.bus a.now ≡ true }
        requires beat { n ≤ 256 }
        requires empty { self.old.addresses.items ≡ [] }
        requires room { deque_len self.old.addresses < deque_capacity self.old.addresses }
        ensures bus { self.new.bus ≡ self.old.bus }
        ensures last { is_some result ≡
            each_paired_beat has_last_where_due (a.now ∷ []) n self.old.beats.items }
        ensures strobes { IfSome result (λ kept. kept ≡ (strobes &&
            each_paired_beat (has_strobes_on_valid_lanes self.old.bus) (a.now ∷ []) n
            self.old.beats.items)) }
        ensures kept { IsSome result →
            unpaired_in self.new ≡ unpaired_of (a.now ∷ []) n self.old.beats.items }
        ensures room { deque_capacity self.new.beats ≡ deque_capacity self.old.beats }
        ensures length { deque_len self.new.beats ≤ deque_len self.old.beats }
    {
        let Some(w) = self.beats.pop_front() else {
            self.addresses.push_back_reserved(*a);
            self.passed = n;
            return Some(strobes);
        };
        if !last_fits(a, n, &w) {
            return None;
        }
        let strobes = self.strobes_still_fit(strobes, a, n, &w);
        if w.last {
            Some(strobes)
        } else {
            self.settle(a, n + 1, strobes)
        }
    }

    /// Whether the strobes of the earlier beats of an address are right, and those of beat `n` too.
    fn strobes_still_fit(&self, strobes: bool, a: &RawAddr, n: u32, w: &WBeat) -> bool
        requires usable { is_usable self.now.bus a.now ≡ true }
        requires beat { n ≤ a.now.len }
        ensures { result ≡ (strobes && has_strobes_on_valid_lanes self.now.bus a.now n w.now) }
    {
        strobes && strobes_fit(a, n, w, self.bus)
    }

    /// Adds the W beat of a round, if there is a new one. Answers whether it keeps rule 10, or None
    /// where it breaks rule 9.
    fn add_beat(&mut self, w: &Option<WBeat>) -> Option<bool>
        requires { deque_len self.old.beats < deque_capacity self.old.beats }
        ensures bus { self.new.bus ≡ self.old.bus }
        ensures last { is_some result ≡ last_is_kept None w.now (unpaired_in self.old) }
        ensures strobes { IfSome result (λ kept. kept ≡
            strobes_are_kept self.old.bus None w.now (unpaired_in self.old)) }
        ensures kept { IsSome result →
            unpaired_in self.new ≡ with_offers None w.now (unpaired_in self.old) }
    {
        let Some(w) = w else {
            return Some(true);
        };
        let (bus, n) = (self.bus, self.passed);
        let Some(a) = self.addresses.front() else {
            self.beats.push_back_reserved(*w);
            return Some(true);
        };
        if !last_fits(a, n, w) {
            return None;
        }
        let strobes = strobes_fit(a, n, w, bus);
        if w.last {
            let _whole = self.addresses.pop_front();
            self.passed = 0;
        } else {
            self.passed = n + 1;
        }
        Some(strobes)
    }
}
