//! How a checker judges one more round, and what it tells of the rounds so far.
ghost use Rattle.std.specs.Prelude.{◌≡◌, ◌≢◌, ◌+◌, ◌<◌, ◌≤◌, ◌^◌, ◌∷◌, ◌++◌, [], ℕ, false, List, Option, None, Some, IsOk, IfNone, OnOk, Err, vec_len, vec_capacity};
ghost use Rattle.std.specs.VecDeque.{deque_len, deque_capacity};
ghost use Rattle.axi_beats.specs.Bus.{IsBusWidth};
ghost use Rattle.axi_history.specs.declared.port.PortRound.{PortRound as Round};
ghost use Rattle.lite_rules.specs.PortFaults.{history_fault};
ghost use Rattle.port_rules.specs.Kept.{kept_of, kept_after_round, unpaired_in};
ghost use Rattle.port_rules.specs.KeptFaults.{axi4_kept_fault, lite_kept_fault, kept_fault};
ghost use Rattle.port_rules.specs.StandsFor.{HasSmallAddresses, StandsFor, checked_port, rounds_of};
ghost use Rattle.port_rules.specs.Unanswered.{unanswered_writes, unanswered_reads};

use crate::lite::{
    lite_address_fault, lite_data_fault, lite_read_channel_fault, lite_response_channel_fault,
};
use crate::outstanding::{
    Waits, address_channel_fault, data_channel_fault, read_channel_fault, response_channel_fault,
    transfer_reads, transfer_writes,
};
use crate::reads::Reads;
use crate::state::{Bursts, PortChecker, RuleFault};
use crate::writes::Writes;
use axi_beats::NoMemory;
use axi_history::{PortKind, PortRound};
use std::alloc::Global;

impl PortChecker {
    /// A checker of a port of this kind, which was given no round. It takes no memory.
    #[tactic(auto, using(crate::proofs::StandsLemmas::stands_at_first))]
    pub fn new(alloc: Global, port: PortKind) -> PortChecker
        requires bus { IsBusWidth port.bus }
        ensures stands { StandsFor result [] }
        ensures port { checked_port result ≡ port }
        ensures rounds { rounds_of result ≡ 0 }
    {
        PortChecker {
            port,
            rounds: 0,
            fault: None,
            waits: Waits::none(),
            bursts: Bursts::new(alloc, port.bus),
            writes: Writes::new(alloc),
            reads: Reads::new(alloc),
        }
    }

    /// Makes room for one round.
    fn reserve(&mut self) -> Result<(), NoMemory>
        ensures port { self.new.port ≡ self.old.port }
        ensures rounds { self.new.rounds ≡ self.old.rounds }
        ensures fault { self.new.fault ≡ self.old.fault }
        ensures kept { kept_of self.new ≡ kept_of self.old }
        ensures addresses { OnOk result
            (deque_len self.new.bursts.addresses < deque_capacity self.new.bursts.addresses) }
        ensures beats { OnOk result
            (deque_len self.new.bursts.beats < deque_capacity self.new.bursts.beats) }
        ensures issued { OnOk result
            (deque_len self.new.writes.issued < deque_capacity self.new.writes.issued) }
        ensures whole { OnOk result
            (vec_len self.new.writes.whole + 2 ≤ vec_capacity self.new.writes.whole) }
        ensures reads { OnOk result
            (vec_len self.new.reads.reads < vec_capacity self.new.reads.reads) }
    {
        self.bursts.reserve()?;
        self.writes.reserve()?;
        self.reads.reserve()?;
        Ok(())
    }

    /// The least channel on which a round of an AXI4-Lite port breaks a rule, and the least such rule.
    fn judge_lite(&self, r: &PortRound) -> Option<(u8, u8)>
        ensures { result ≡ lite_kept_fault self.now.port.bus (kept_of self.now) r.now }
    {
        if let Some(rule) = lite_address_fault(&self.waits.aw, &r.aw, self.port.bus) {
            return Some((1, rule));
        }
        if let Some(rule) = lite_data_fault(&self.waits.w, &r.w) {
            return Some((2, rule));
        }
        if let Some(rule) = lite_response_channel_fault(&self.writes, &self.waits.b, &r.b) {
            return Some((3, rule));
        }
        if let Some(rule) = lite_address_fault(&self.waits.ar, &r.ar, self.port.bus) {
            return Some((4, rule));
        }
        match lite_read_channel_fault(&self.reads, &self.waits.r, &r.r) {
            Some(rule) => Some((5, rule)),
            None => None,
        }
    }

    /// The least channel on which a round of an AXI4 port breaks a rule, and the least such rule. Where
    /// it breaks none, its addresses and W beats are added.
    #[tactic(auto, using(crate::proofs::AddressLemmas::new_usable))]
    fn judge_axi4(&mut self, r: &PortRound) -> Option<(u8, u8)>
        requires small { HasSmallAddresses r.now }
        requires addresses { deque_len self.old.bursts.addresses
            < deque_capacity self.old.bursts.addresses }
        requires beats { deque_len self.old.bursts.beats < deque_capacity self.old.bursts.beats }
        ensures port { self.new.port ≡ self.old.port }
        ensures rounds { self.new.rounds ≡ self.old.rounds }
        ensures same_fault { self.new.fault ≡ self.old.fault }
        ensures waits { self.new.waits ≡ self.old.waits }
        ensures writes { self.new.writes ≡ self.old.writes }
        ensures reads { self.new.reads ≡ self.old.reads }
        ensures fault { result ≡ axi4_kept_fault self.old.port.bus (kept_of self.old) r.now }
        ensures unpaired { IfNone result
            (unpaired_in self.new.bursts ≡ (kept_after_round false (kept_of self.old) r.now).unpaired) }
    {
        if let Some(rule) = address_channel_fault(&self.waits.aw, &r.aw, self.port.bus) {
            return Some((1, rule));
        }
        if let Some(rule) = data_channel_fault(&mut self.bursts, &self.waits, r) {
            return Some((2, rule));
        }
        if let Some(rule) = response_channel_fault(&self.writes, &self.waits.b, &r.b) {
            return Some((3, rule));
        }
        if let Some(rule) = address_channel_fault(&self.waits.ar, &r.ar, self.port.bus) {
            return Some((4, rule));
        }
        match read_channel_fault(&self.reads, &self.waits.r, &r.r) {
            Some(rule) => Some((5, rule)),
            None => None,
        }
    }

    /// The least channel on which a round breaks a rule, and the least such rule. Where it breaks none,
    /// the addresses and W beats of an AXI4 port are added.
    fn judge(&mut self, r: &PortRound) -> Option<(u8, u8)>
        requires small { HasSmallAddresses r.now }
        requires addresses { deque_len self.old.bursts.addresses
            < deque_capacity self.old.bursts.addresses }
        requires beats { deque_len self.old.bursts.beats < deque_capacity self.old.bursts.beats }
        ensures port { self.new.port ≡ self.old.port }
        ensures rounds { self.new.rounds ≡ self.old.rounds }
        ensures same_fault { self.new.fault ≡ self.old.fault }
        ensures waits { self.new.waits ≡ self.old.waits }
        ensures writes { self.new.writes ≡ self.old.writes }
        ensures reads { self.new.reads ≡ self.old.reads }
        ensures fault { result ≡ kept_fault self.old.port (kept_of self.old) r.now }
        ensures unpaired { IfNone result
            (unpaired_in self.new.bursts
            ≡ (kept_after_round self.old.port.lite (kept_of self.old) r.now).unpaired) }
    {
        if self.port.lite {
            self.judge_lite(r)
        } else {
            self.judge_axi4(r)
        }
    }

    /// Judges a round, and counts what it transfers where it breaks no rule.
    fn add(&mut self, r: &PortRound) -> Option<(u8, u8)>
        requires small { HasSmallAddresses r.now }
        requires rounds { self.old.rounds < 2 ^ 31 }
        requires addresses { deque_len self.old.bursts.addresses
            < deque_capacity self.old.bursts.addresses }
        requires beats { deque_len self.old.bursts.beats < deque_capacity self.old.bursts.beats }
        requires issued { deque_len self.old.writes.issued < deque_capacity self.old.writes.issued }
        requires whole { vec_len self.old.writes.whole + 2 ≤ vec_capacity self.old.writes.whole }
        requires reads { vec_len self.old.reads.reads < vec_capacity self.old.reads.reads }
        ensures port { self.new.port ≡ self.old.port }
        ensures rounds { self.new.rounds ≡ self.old.rounds + 1 }
        ensures same_fault { self.new.fault ≡ self.old.fault }
        ensures fault { result ≡ kept_fault self.old.port (kept_of self.old) r.now }
        ensures kept { IfNone result
            (kept_of self.new ≡ kept_after_round self.old.port.lite (kept_of self.old) r.now) }
        ensures writes { result ≢ None → (kept_of self.new).writes ≡ (kept_of self.old).writes }
        ensures reads { result ≢ None → (kept_of self.new).reads ≡ (kept_of self.old).reads }
    {
        self.rounds += 1;
        let fault = self.judge(r);
        if fault.is_none() {
            transfer_writes(&mut self.writes, r);
            transfer_reads(&mut self.reads, r);
            self.waits.keep_after(r);
        }
        fault
    }

    /// Adds the next round of the port, which is of its kind, with addresses below 2^63, after fewer
    /// than 2^31 rounds. Ok says that the rounds so far break no rule. Broken comes with the first
    /// round that breaks one, has the least channel and its least rule, and comes again from then
    /// on. NoMemory says that the round wasn't added.
    pub fn round(&mut self, r: &PortRound) -> Result<(), RuleFault>
        requires kind { r.now.kind ≡ checked_port self.old }
        requires addresses { HasSmallAddresses r.now }
        requires rounds { rounds_of self.old < 2 ^ 31 }
        ensures port { checked_port self.new ≡ checked_port self.old }
        ensures rounds { rounds_of self.new ≤ rounds_of self.old + 1 }

        // What it stands for: the longer history, and without memory the same one.
        ensures added { result ≢ Err RuleFault.NoMemory →
            (h : List Round) → StandsFor self.old h → StandsFor self.new (h ++ r.now ∷ []) }
        ensures unchanged { result ≡ Err RuleFault.NoMemory →
            (h : List Round) → StandsFor self.old h → StandsFor self.new h }

        // Each answer says what the history breaks first.
        ensures legal { IsOk result → (h : List Round) → StandsFor self.old h →
            history_fault (checked_port self.old) (h ++ r.now ∷ []) ≡ None }
        ensures broken { (rule channel : ℕ) → result ≡ Err (RuleFault.Broken rule channel) →
            (h : List Round) → StandsFor self.old h →
            history_fault (checked_port self.old) (h ++ r.now ∷ []) ≡ Some (channel, rule) }
        ensures stays { (rule channel : ℕ) (h : List Round) → StandsFor self.old h →
            history_fault (checked_port self.old) h ≡ Some (channel, rule) →
            result ≡ Err (RuleFault.Broken rule channel) }
    {
        if let Some((channel, rule)) = self.fault {
            self.rounds += 1;
            return Err(RuleFault::Broken { rule, channel });
        }
        if self.reserve().is_err() {
            return Err(RuleFault::NoMemory);
        }
        match self.add(r) {
            Some((channel, rule)) => {
                self.fault = Some((channel, rule));
                Err(RuleFault::Broken { rule, channel })
            }
            None => Ok(()),
        }
    }

    /// How many writes and how many reads are unanswered: the AWs less the Bs that were transferred
    /// and the ARs less the R beats with `last`, in the rounds before the first broken one. By rule
    /// 11, on AXI4-Lite by rule 6, these rounds have no more answers than requests, so the
    /// differences are exact; and as a round transfers at most one request of each kind, they fit.
    /// It takes no memory.
    pub fn unanswered(&self) -> (u32, u32)
        ensures writes { (h : List Round) → StandsFor self.now h →
            result.0 ≡ unanswered_writes (checked_port self.now) h }
        ensures reads { (h : List Round) → StandsFor self.now h →
            result.1 ≡ unanswered_reads (checked_port self.now) h }
    {
        (self.writes.unanswered(), self.reads.unanswered())
    }
}
