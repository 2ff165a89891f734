//! The beats that a manager puts, in place in its `Out`. (Arm IHI 0022, write strobes.)

ghost use Rattle.std.specs.Prelude.{◌≡◌, ◌<◌, ◌≤◌, ◌+◌, ◌-◌, ◌*◌, ◌^◌, All, IfSome, Some, drop, length, slice_get, take};
ghost use Rattle.std.specs.Option.{option_map};
ghost use Rattle.axi_beats.specs.Bus.{IsBusWidth};
ghost use Rattle.burst_address.specs.Legal.{IsLegal};
ghost use Rattle.manager_node.specs.Beats.{data_beat, lane_of, lanes_from, item_request, strobe_of};
ghost use Rattle.manager_node.specs.ManagerInside.{IsWithin};
ghost use Rattle.manager_node.specs.Placed.{placed};
ghost use Rattle.node_core.specs.Rows.{put_of};

use crate::script::{Script, Txn, WriteByte};
use crate::sending::Sending;
use axi_beats::{Addr, Lanes, Tag, WBeat};
use burst_address::lanes;
use node_core::set_put;

/// Puts the request of the transaction at `place` on link `number`; nothing where there is none.
pub(crate) fn put_request(
    put: &mut Option<(u32, Addr)>,
    number: u32,
    script: &Script,
    place: Option<u32>,
)
    requires { IfSome place (λ p. p < length script.now) }
    ensures { put.new ≡ put_of number
        (option_map (λ next. item_request next.1) (placed script.now place)) }
{
    match place {
        Some(place) => {
            let txn = script.txn(place);
            let request = Addr {
                tag: tag(txn),
                ..txn.request
            };
            set_put(put, number, Some(&request));
        }
        None => set_put(put, number, None),
    }
}

/// Puts the next data beat of the write at `place` on link `number`, whose bus has `bus` bytes;
/// nothing where there is none.
pub(crate) fn put_data(
    put: &mut Option<(u32, WBeat)>,
    number: u32,
    script: &Script,
    place: Option<u32>,
    bus: u8,
    sending: &Sending,
)
    requires place { IfSome place (λ p. p < length script.now) }
    requires within { IfSome (placed script.now place) (λ next. IsWithin sending.now next.1) }
    requires bus { IsBusWidth bus }
    requires legal { All (λ item. IsLegal item.txn.request bus) script.now }
    ensures { put.new ≡ put_of number
        (option_map (λ next. data_beat next.1 bus sending.now.beats) (placed script.now place)) }
{
    match place {
        Some(place) => {
            let beat = next_beat(script, place, bus, sending);
            set_put(put, number, Some(&beat));
        }
        None => set_put(put, number, None),
    }
}

/// The next data beat of the write at `place`.
fn next_beat(script: &Script, place: u32, bus: u8, sending: &Sending) -> WBeat
    requires place { place < length script.now }
    requires within { IfSome (slice_get script.now place) (IsWithin sending.now) }
    requires bus { IsBusWidth bus }
    requires legal { All (λ item. IsLegal item.txn.request bus) script.now }
    ensures { option_map (λ item. data_beat item bus sending.now.beats)
        (slice_get script.now place) ≡ Some result }
{
    let request = script.request(place);
    let bytes = script.bytes(place);
    let (low, high) = lanes(request, sending.beats, bus);
    let end = sending.bytes + usize::from(high - low) + 1;
    let (lanes, strobe) = on_lanes(part(bytes, sending.bytes, end), low);
    WBeat {
        lanes,
        strobe,
        last: sending.beats == u32::from(request.len),
        tag: tag(script.txn(place)),
    }
}

/// The tag of a transaction's beats: its number, and no lanes.
fn tag(txn: &Txn) -> Tag
    ensures { result ≡ record { txn = txn.now.number; low = 0; high = 0 } }
{
    Tag {
        txn: txn.number,
        low: 0,
        high: 0,
    }
}

/// The bytes from place `start` to before place `end`.
fn part(bytes: &[WriteByte], start: usize, end: usize) -> &[WriteByte]
    requires order { start ≤ end }
    requires within { end ≤ length bytes.now }
    ensures { result.now ≡ take (end - start) (drop start bytes.now) }
{
    &bytes[start..end]
}

/// The lanes and strobes of bytes from lane `low` upwards, of those with a strobe alone.
fn on_lanes(bytes: &[WriteByte], low: u8) -> (Lanes, u128)
    requires low { low < 128 }
    requires few { low + length bytes.now ≤ 128 }
    ensures lanes { result.0 ≡ lanes_from low bytes.now }
    ensures strobe { result.1 ≡ strobe_of bytes.now * 2 ^ low }
{
    let mut lanes = Lanes::zero();
    let mut strobe = 0;
    for (n, byte) in bytes.iter().enumerate() {
        lanes.set(low + n as u8, on_lane(byte));
        strobe |= u128::from(byte.strobed) << n;
    }
    (lanes, strobe << low)
}

/// What is on a byte's lane: 0 for a byte without a strobe.
fn on_lane(byte: &WriteByte) -> u8
    ensures { result ≡ lane_of byte.now }
{
    if byte.strobed { byte.value } else { 0 }
}
