//! What a channel carries, and when it is the same as in the round before, for rules 1 and 2. (Arm IHI
//! 0022, handshake process.)
ghost use Rattle.std.specs.Prelude.{◌≡◌, ◌==◌, ◌<◌, ◌&&◌, Bool, Option, None};
ghost use Rattle.axi_history.specs.PortHistory.{offer_of};
ghost use Rattle.axi_history.specs.PortRules.{same_tag, same_address, same_bytes, same_data, same_response, same_read, handshake_rules, least_broken};

use axi_beats::{Lanes, Tag, WBeat};
use axi_history::{RawAddr, RawB, RawR, Seen};

/// A beat that a channel carries.
pub(crate) trait Payload: Copy {
    ghost same: { Self → Self → Bool };

    /// Whether the beats are equal in every field.
    fn is_same(&self, other: &Self) -> bool
        ensures { result ≡ same self.now other.now };
}

impl Payload for RawAddr {
    ghost same = { same_address };

    fn is_same(&self, other: &RawAddr) -> bool {
        self.id == other.id
            && self.addr == other.addr
            && self.len == other.len
            && self.size == other.size
            && self.burst == other.burst
            && self.lock == other.lock
            && is_same_tag(self.tag, other.tag)
    }
}

impl Payload for WBeat {
    ghost same = { same_data };

    fn is_same(&self, other: &WBeat) -> bool {
        are_same_lanes(&self.lanes, &other.lanes)
            && self.strobe == other.strobe
            && self.last == other.last
            && is_same_tag(self.tag, other.tag)
    }
}

impl Payload for RawB {
    ghost same = { same_response };

    fn is_same(&self, other: &RawB) -> bool {
        self.id == other.id && self.resp == other.resp && is_same_tag(self.tag, other.tag)
    }
}

impl Payload for RawR {
    ghost same = { same_read };

    fn is_same(&self, other: &RawR) -> bool {
        self.id == other.id
            && are_same_lanes(&self.lanes, &other.lanes)
            && self.resp == other.resp
            && self.last == other.last
            && is_same_tag(self.tag, other.tag)
    }
}

/// Whether two tags are equal. The standard has no tags: they are this project's own, and a beat that
/// waits keeps its tag as it keeps the rest.
fn is_same_tag(a: Tag, b: Tag) -> bool
    ensures { result ≡ same_tag a b }
{
    a.txn == b.txn && a.low == b.low && a.high == b.high
}

/// Whether two beats carry the same bytes, on all 128 lanes.
#[tactic(auto, using(crate::proofs::PayloadLemmas::bytes_each, crate::proofs::PayloadLemmas::bytes_differ,))]
fn are_same_lanes(a: &Lanes, b: &Lanes) -> bool
    ensures { result ≡ same_bytes a.now b.now }
{
    if a.get(0) != b.get(0) {
        return false;
    }
    for n in 1..128 {
        if a.get(n) != b.get(n) {
            return false;
        }
    }
    true
}

/// The first broken one of rules 1 and 2, for a beat that waits since the round before and what the
/// channel offers now.
pub(crate) fn handshake_fault<T: Payload>(waits: &Option<T>, offer: &Option<Seen<T>>) -> Option<u8>
    ensures { result ≡ least_broken (handshake_rules T.same waits.now (offer_of offer.now)) }
{
    match (waits, offer) {
        (Some(_), None) => Some(1),
        (Some(before), Some(seen)) if !before.is_same(&seen.beat) => Some(2),
        _ => None,
    }
}
