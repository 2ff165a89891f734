//! What a channel offers in a round: what is new, what is transferred, and what waits for the next
//! round. (Arm IHI 0022, handshake process.)
ghost use Rattle.std.specs.Prelude.{◌≡◌, Option, None};
ghost use Rattle.axi_history.specs.PortHistory.{offer_of, transfer_of, wait_of};
ghost use Rattle.port_rules.specs.Offers.{new_offer};

use axi_history::Seen;

/// The beat that a channel offers and that didn't wait since the round before.
pub(crate) fn new_offer<T: Copy>(waits: &Option<T>, offer: &Option<Seen<T>>) -> Option<T>
    ensures { result ≡ new_offer waits.now (offer_of offer.now) }
{
    match (waits, offer) {
        (None, Some(seen)) => Some(seen.beat),
        _ => None,
    }
}

/// The beat that a channel transfers.
pub(crate) fn transferred<T: Copy>(offer: &Option<Seen<T>>) -> Option<T>
    ensures { result ≡ transfer_of offer.now }
{
    match offer {
        Some(seen) if seen.taken => Some(seen.beat),
        _ => None,
    }
}

/// Keeps the beat that a channel offers without a transfer, and nothing where there is none.
pub(crate) fn keep_waiting<T: Copy>(waits: &mut Option<T>, offer: &Option<Seen<T>>)
    ensures { waits.new ≡ wait_of offer.now }
{
    match offer {
        Some(seen) if !seen.taken => *waits = Some(seen.beat),
        _ => keep_none(waits),
    }
}

/// Keeps nothing. Writing None costs as much as writing a beat, so it is written only over one.
fn keep_none<T: Copy>(waits: &mut Option<T>)
    ensures { waits.new ≡ None }
{
    if waits.is_some() {
        *waits = None;
    }
}
