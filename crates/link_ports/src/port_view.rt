//! The port of a link, as it is seen in one round.

ghost use Rattle.std.specs.Prelude.{◌≡◌, option_map};
ghost use Rattle.std.specs.Option.{option_copied};
ghost use Rattle.axi_link.specs.Moves.{takes_from};
ghost use Rattle.link_ports.specs.PortView.{port_of as port_seen, seen_address, seen_read_beat, seen_response};

use axi_beats::{Addr, BBeat, RBeat, WBeat};
use axi_history::{PortKind, PortRound, RawAddr, RawB, RawR, Seen};
use axi_link::{Link, Out};

/// What is seen of link `number` in round `round`: the beats that its five channels offer, and
/// which of them the node at the other end takes. Rounds are counted from 1. `link` is the link as
/// the round began, and `upper` and `lower` are the moves of its two nodes in the round: the lower
/// one takes addresses and write data, the upper one takes answers. (Arm IHI 0022, handshake
/// process.)
pub fn port_of(
    round: u64,
    number: u32,
    kind: PortKind,
    link: &Link,
    upper: &Out,
    lower: &Out,
) -> PortRound
    ensures { result ≡ port_seen round number kind link.now upper.now lower.now }
{
    PortRound {
        round,
        link: number,
        kind,
        aw: address_shown(link.head_aw(), takes_from(lower.aw_take, number)),
        w: data_shown(link.head_w(), takes_from(lower.w_take, number)),
        b: response_shown(link.head_b(), takes_from(upper.b_take, number)),
        ar: address_shown(link.head_ar(), takes_from(lower.ar_take, number)),
        r: read_beat_shown(link.head_r(), takes_from(upper.r_take, number)),
    }
}

/// Whether a node that takes from the link `take`, or from none, takes from link `number`.
fn takes_from(take: Option<u32>, number: u32) -> bool
    ensures { result ≡ takes_from number take }
{
    match take {
        Some(link) => link == number,
        None => false,
    }
}

/// What is seen of an address channel with this head, if it has one. No access is exclusive.
fn address_shown(head: Option<&Addr>, taken: bool) -> Option<Seen<RawAddr>>
    ensures { result ≡ option_map (λ a. record { beat = seen_address a; taken = taken }) (option_copied head.entry) }
{
    let address = head?;
    let beat = RawAddr {
        id: address.id,
        addr: address.addr,
        len: address.len,
        size: address.size,
        burst: address.burst.code(),
        lock: false,
        tag: address.tag,
    };
    Some(Seen { beat, taken })
}

/// What is seen of the channel of write data.
fn data_shown(head: Option<&WBeat>, taken: bool) -> Option<Seen<WBeat>>
    ensures { result ≡ option_map (λ w. record { beat = w; taken = taken }) (option_copied head.entry) }
{
    let beat = *head?;
    Some(Seen { beat, taken })
}

/// What is seen of the channel of responses to writes.
fn response_shown(head: Option<&BBeat>, taken: bool) -> Option<Seen<RawB>>
    ensures { result ≡ option_map (λ b. record { beat = seen_response b; taken = taken }) (option_copied head.entry) }
{
    let response = head?;
    let beat = RawB {
        id: response.id,
        resp: response.resp.code(),
        tag: response.tag,
    };
    Some(Seen { beat, taken })
}

/// What is seen of the channel of read data.
fn read_beat_shown(head: Option<&RBeat>, taken: bool) -> Option<Seen<RawR>>
    ensures { result ≡ option_map (λ r. record { beat = seen_read_beat r; taken = taken }) (option_copied head.entry) }
{
    let read = head?;
    let beat = RawR {
        id: read.id,
        lanes: read.lanes,
        resp: read.resp.code(),
        last: read.last,
        tag: read.tag,
    };
    Some(Seen { beat, taken })
}
