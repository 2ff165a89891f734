//! One beat of data on two buses. (Arm IHI 0022, narrow transfers, data read and write structure.)

ghost use Rattle.std.specs.Prelude.{◌≡◌, ◌<◌, ◌≤◌, ◌+◌, ◌%◌, ◌*◌, ◌^◌};
ghost use Rattle.axi_beats.specs.Bus.{IsBusWidth};
ghost use Rattle.burst_address.specs.Lanes.{lane_shift};
ghost use Rattle.up_node.specs.UpBeats.{beat_narrowed, beat_shift, beat_widened, moved_lanes};
ghost use Rattle.up_node.specs.UpInside.{waiting_of};
ghost use Rattle.up_node.specs.UpState.{IsPassing, IsUpShape};

use crate::passing::Passing;
use crate::shape::UpShape;
use axi_beats::{Lanes, RBeat, WBeat};
use burst_address::beat_address;

/// The wide lane on which narrow lane 0 of the next beat of a burst stands.
pub(crate) fn shift_of(shape: &UpShape, entry: &Passing) -> u8
    requires shape { IsUpShape shape.now }
    requires entry { IsPassing shape.now.narrow (waiting_of entry.now) }
    ensures value { result ≡ beat_shift shape.now entry.now.request entry.now.passed }
    ensures within { result + shape.now.narrow ≤ shape.now.wide }
{
    lane_of(
        shape.narrow,
        shape.wide,
        beat_address(&entry.request, u32::from(entry.passed)),
    )
}

/// The wide lane on which lane 0 of the narrow word at an address stands. Both widths are powers of two, so
/// masks are remainders.
fn lane_of(narrow: u8, wide: u8, address: u64) -> u8
    requires narrow { IsBusWidth narrow }
    requires wide { IsBusWidth wide }
    requires wider { narrow < wide }
    ensures value { result ≡ lane_shift narrow wide address }
    ensures within { result + narrow ≤ wide }
{
    let lane = (address & u64::from(wide - 1)) as u8;
    lane - (lane & (narrow - 1))
}

/// Becomes a beat of write data as it stands on the wide bus.
pub(crate) fn widen(to: &mut WBeat, shape: &UpShape, shift: u8, from: &WBeat)
    requires shape { IsUpShape shape.now }
    requires within { shift + shape.now.narrow ≤ shape.now.wide }
    ensures { to.new ≡ beat_widened shape.now shift from.now }
{
    to.strobe = widened_strobe(from.strobe, shape.narrow, shift);
    to.last = from.last;
    to.tag = from.tag;
    move_lanes(&mut to.lanes, &from.lanes, shape.narrow, 0, shift);
}

/// The strobes of the narrow bus, moved.
fn widened_strobe(strobe: u128, narrow: u8, shift: u8) -> u128
    requires some { 0 < narrow }
    requires narrow { narrow < 128 }
    requires within { shift + narrow ≤ 128 }
    ensures { result ≡ strobe % 2 ^ narrow * 2 ^ shift }
{
    (strobe & ((1 << narrow) - 1)) << shift
}

/// Becomes a beat of read data as it stands on the narrow bus.
pub(crate) fn narrow(to: &mut RBeat, shape: &UpShape, shift: u8, from: &RBeat)
    requires shape { IsUpShape shape.now }
    requires within { shift + shape.now.narrow ≤ shape.now.wide }
    ensures { to.new ≡ beat_narrowed shape.now shift from.now }
{
    to.id = from.id;
    to.resp = from.resp;
    to.last = from.last;
    to.tag = from.tag;
    move_lanes(&mut to.lanes, &from.lanes, shape.narrow, shift, 0);
}

/// Sets lanes to `count` lanes of another beat, from lane `source` on, moved to stand from lane `target`
/// on, and all others to 0.
fn move_lanes(to: &mut Lanes, from: &Lanes, count: u8, source: u8, target: u8)
    requires source { source + count ≤ 128 }
    requires target { target + count ≤ 128 }
    ensures { to.new ≡ moved_lanes count source target from.now }
{
    *to = Lanes::zero();
    for lane in target..target + count {
        to.set(lane, from.get(source + (lane - target)));
    }
}
