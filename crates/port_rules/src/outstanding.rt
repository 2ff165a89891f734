//! What is outstanding on a port, and how a round is judged by it.
ghost use Rattle.std.specs.Prelude.{◌≡◌, ◌+◌, ◌<◌, ◌≤◌, ◌^◌, ◌++◌, true, length, Option, None, Some, IfNone, vec_len, vec_capacity};
ghost use Rattle.axi_beats.specs.Bus.{IsBusWidth};
ghost use Rattle.std.specs.Option.{ForSome};
ghost use Rattle.std.specs.VecDeque.{deque_len, deque_capacity};
ghost use Rattle.axi_history.specs.PortHistory.{offer_of, transfer_of};
ghost use Rattle.axi_history.specs.PortRules.{same_address, same_data, same_response, same_read, handshake_rules, rules_of_offer, address_rules, least_broken, or_else};
ghost use Rattle.port_rules.specs.Kept.{unpaired_in, waits_after};
ghost use Rattle.port_rules.specs.OpenReads.{read_fault, add_ar, add_r};
ghost use Rattle.port_rules.specs.OpenWrites.{open_writes, response_fault, add_aw, add_last, add_b};
ghost use Rattle.port_rules.specs.Unpaired.{is_usable, with_offers, data_fault};
ghost use Rattle.port_rules.specs.Offers.{new_offer as new_offer_of, fault_of_offer};

use crate::address::address_fault;
use crate::offer::{keep_waiting, new_offer, transferred};
use crate::payload::handshake_fault;
use crate::reads::Reads;
use crate::state::Bursts;
use crate::writes::Writes;
use axi_beats::{NoMemory, WBeat};
use axi_history::{PortRound, RawAddr, RawB, RawR, Seen};
use std::alloc::Global;

/// The beats that were offered in the last round and weren't taken.
#[derive(Clone, Copy, Default)]
pub(crate) struct Waits {
    pub(crate) aw: Option<RawAddr>,
    pub(crate) w: Option<WBeat>,
    pub(crate) b: Option<RawB>,
    pub(crate) ar: Option<RawAddr>,
    pub(crate) r: Option<RawR>,
}

impl Waits {
    /// What waits before the first round: nothing.
    pub(crate) fn none() -> Waits
        ensures { result ≡ record { aw = None; w = None; b = None; ar = None; r = None } }
    {
        Waits {
            aw: None,
            w: None,
            b: None,
            ar: None,
            r: None,
        }
    }

    /// Keeps what waits after a round.
    pub(crate) fn keep_after(&mut self, r: &PortRound)
        ensures { self.new ≡ waits_after r.now }
    {
        keep_waiting(&mut self.aw, &r.aw);
        keep_waiting(&mut self.w, &r.w);
        keep_waiting(&mut self.b, &r.b);
        keep_waiting(&mut self.ar, &r.ar);
        keep_waiting(&mut self.r, &r.r);
    }
}

/// The first rule that is broken on an address channel, of rules 1 to 8.
pub(crate) fn address_channel_fault(
    waits: &Option<RawAddr>,
    offer: &Option<Seen<RawAddr>>,
    bus: u8,
) -> Option<u8>
    requires { IsBusWidth bus }
    ensures { result ≡
        least_broken (handshake_rules same_address waits.now (offer_of offer.now)
        ++ rules_of_offer (offer_of offer.now) (address_rules bus)) }
{
    if let Some(rule) = handshake_fault(waits, offer) {
        return Some(rule);
    }
    match offer {
        Some(seen) => address_fault(&seen.beat, bus),
        None => None,
    }
}

/// The first rule that is broken on W, of rules 1, 2, 9 and 10, where `bursts` has what is left over
/// of all that was offered before. The addresses and W beats of the round are added.
pub(crate) fn data_channel_fault(bursts: &mut Bursts, waits: &Waits, r: &PortRound) -> Option<u8>
    requires usable { ForSome (new_offer_of waits.now.aw (offer_of r.now.aw))
        (λ a. is_usable bursts.old.bus a ≡ true) }
    requires address_room { deque_len bursts.old.addresses < deque_capacity bursts.old.addresses }
    requires beat_room { deque_len bursts.old.beats < deque_capacity bursts.old.beats }
    ensures bus { bursts.new.bus ≡ bursts.old.bus }
    ensures fault { let aw = new_offer_of waits.now.aw (offer_of r.now.aw) in
        let w = new_offer_of waits.now.w (offer_of r.now.w) in
        result ≡ or_else
        (least_broken (handshake_rules same_data waits.now.w (offer_of r.now.w)))
        (data_fault bursts.old.bus aw w (unpaired_in bursts.old)) }
    ensures kept { let aw = new_offer_of waits.now.aw (offer_of r.now.aw) in
        let w = new_offer_of waits.now.w (offer_of r.now.w) in
        IfNone result (unpaired_in bursts.new ≡ with_offers aw w (unpaired_in bursts.old)) }
{
    if let Some(rule) = handshake_fault(&waits.w, &r.w) {
        return Some(rule);
    }
    let aw = new_offer(&waits.aw, &r.aw);
    let w = new_offer(&waits.w, &r.w);
    bursts.add(&aw, &w)
}

/// The first rule that is broken on B, of rules 1, 2, 8 and 11.
pub(crate) fn response_channel_fault(
    writes: &Writes,
    waits: &Option<RawB>,
    offer: &Option<Seen<RawB>>,
) -> Option<u8>
    ensures { result ≡ or_else
        (least_broken (handshake_rules same_response waits.now (offer_of offer.now)))
        (fault_of_offer (offer_of offer.now) (response_fault writes.now.whole.items)) }
{
    if let Some(rule) = handshake_fault(waits, offer) {
        return Some(rule);
    }
    match offer {
        Some(seen) => writes.fault(&seen.beat),
        None => None,
    }
}

/// The first rule that is broken on R, of rules 1, 2, 8, 11 and 12.
pub(crate) fn read_channel_fault(
    reads: &Reads,
    waits: &Option<RawR>,
    offer: &Option<Seen<RawR>>,
) -> Option<u8>
    ensures { result ≡ or_else
        (least_broken (handshake_rules same_read waits.now (offer_of offer.now)))
        (fault_of_offer (offer_of offer.now) (read_fault reads.now.reads.items)) }
{
    if let Some(rule) = handshake_fault(waits, offer) {
        return Some(rule);
    }
    match offer {
        Some(seen) => reads.fault(&seen.beat),
        None => None,
    }
}

/// Counts what a round transfers on AW, W and B. The response goes first: the write that it answers
/// was whole in an earlier round.
pub(crate) fn transfer_writes(writes: &mut Writes, r: &PortRound)
    requires issued { deque_len writes.old.issued < deque_capacity writes.old.issued }
    requires whole { vec_len writes.old.whole + 2 ≤ vec_capacity writes.old.whole }
    requires surplus { writes.old.surplus + 1 < 2 ^ 32 }
    ensures surplus { writes.new.surplus ≤ writes.old.surplus + 1 }
    ensures count { length writes.new.issued.items + length writes.new.whole.items
        ≤ length writes.old.issued.items + length writes.old.whole.items + 1 }
    ensures writes { let answered = add_b (transfer_of r.now.b) (open_writes writes.old) in
        open_writes writes.new ≡
        add_aw (transfer_of r.now.aw) (add_last (transfer_of r.now.w) answered) }
{
    if let Some(b) = transferred(&r.b) {
        writes.response(b.id);
    }
    if let Some(w) = transferred(&r.w) {
        if w.last {
            writes.last_beat();
        }
    }
    if let Some(a) = transferred(&r.aw) {
        writes.address(a.id);
    }
}

/// Counts what a round transfers on AR and R. The read beat goes first: the read that it answers was
/// asked for in an earlier round.
pub(crate) fn transfer_reads(reads: &mut Reads, r: &PortRound)
    requires { vec_len reads.old.reads < vec_capacity reads.old.reads }
    ensures reads { reads.new.reads.items ≡
        add_ar (transfer_of r.now.ar) (add_r (transfer_of r.now.r) reads.old.reads.items) }
    ensures count { length reads.new.reads.items ≤ length reads.old.reads.items + 1 }
{
    if let Some(beat) = transferred(&r.r) {
        reads.beat(beat.id);
    }
    if let Some(a) = transferred(&r.ar) {
        reads.address(&a);
    }
}
