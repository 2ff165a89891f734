//! How a round of an AXI4-Lite port is judged by what is outstanding. (Arm IHI 0022, AXI4-Lite.)
ghost use Rattle.std.specs.Prelude.{◌≡◌, ◌++◌, ◌<◌, Option, None, Some};
ghost use Rattle.axi_beats.specs.Bus.{IsBusWidth};
ghost use Rattle.axi_history.specs.PortHistory.{offer_of};
ghost use Rattle.axi_history.specs.PortRules.{same_address, same_data, same_response, same_read, handshake_rules, rules_of_offer, least_broken, or_else};
ghost use Rattle.lite_rules.specs.LiteRules.{lite_address_rules, lite_data_rules};
ghost use Rattle.port_rules.specs.KeptFaults.{lite_response_fault, lite_read_fault};
ghost use Rattle.port_rules.specs.Offers.{fault_of_offer};

use crate::address::is_lite_access;
use crate::payload::handshake_fault;
use crate::reads::Reads;
use crate::writes::Writes;
use axi_beats::WBeat;
use axi_history::{RawAddr, RawB, RawR, Seen};

/// The first of rules 1 to 3 that is broken on an address channel.
pub(crate) fn lite_address_fault(
    waits: &Option<RawAddr>,
    offer: &Option<Seen<RawAddr>>,
    bus: u8,
) -> Option<u8>
    requires { IsBusWidth bus }
    ensures { result ≡
        least_broken (handshake_rules same_address waits.now (offer_of offer.now)
        ++ rules_of_offer (offer_of offer.now) (lite_address_rules bus)) }
{
    if let Some(rule) = handshake_fault(waits, offer) {
        return Some(rule);
    }
    match offer {
        Some(seen) if !is_lite_access(&seen.beat, bus) => Some(3),
        _ => None,
    }
}

/// The first of rules 1, 2 and 4 that is broken on W.
pub(crate) fn lite_data_fault(waits: &Option<WBeat>, offer: &Option<Seen<WBeat>>) -> Option<u8>
    ensures { result ≡
        least_broken (handshake_rules same_data waits.now (offer_of offer.now)
        ++ rules_of_offer (offer_of offer.now) lite_data_rules) }
{
    if let Some(rule) = handshake_fault(waits, offer) {
        return Some(rule);
    }
    match offer {
        Some(seen) if !seen.beat.last => Some(4),
        _ => None,
    }
}

/// The first of rules 1, 2, 4, 5 and 6 that is broken on B.
pub(crate) fn lite_response_channel_fault(
    writes: &Writes,
    waits: &Option<RawB>,
    offer: &Option<Seen<RawB>>,
) -> Option<u8>
    ensures { result ≡ or_else
        (least_broken (handshake_rules same_response waits.now (offer_of offer.now)))
        (fault_of_offer (offer_of offer.now) (lite_response_fault writes.now.whole.items)) }
{
    if let Some(rule) = handshake_fault(waits, offer) {
        return Some(rule);
    }
    match offer {
        Some(seen) => writes.lite_fault(&seen.beat),
        None => None,
    }
}

/// The first of rules 1, 2, 4, 5 and 6 that is broken on R.
pub(crate) fn lite_read_channel_fault(
    reads: &Reads,
    waits: &Option<RawR>,
    offer: &Option<Seen<RawR>>,
) -> Option<u8>
    ensures { result ≡ or_else
        (least_broken (handshake_rules same_read waits.now (offer_of offer.now)))
        (fault_of_offer (offer_of offer.now) (lite_read_fault reads.now.reads.items)) }
{
    if let Some(rule) = handshake_fault(waits, offer) {
        return Some(rule);
    }
    match offer {
        Some(seen) => reads.lite_fault(&seen.beat),
        None => None,
    }
}
