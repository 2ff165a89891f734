//! The bytes of single beats: what a W beat writes and what an R beat answers. (Arm IHI 0022, data
//! read and write structure.)

ghost use Rattle.std.specs.Prelude.{◌≡◌, ◌<◌, ◌≤◌, ◌^◌};
ghost use Rattle.burst_address.specs.Formulas.{beat_at};
ghost use Rattle.memory_node.specs.Beats.{answered_lanes, stored_bytes, strobed_status, valid_status, with_bytes};
ghost use Rattle.memory_node.specs.MemoryArea.{IsMemoryArea};
ghost use Rattle.memory_node.specs.MemoryState.{IsReadEntry, IsRequest};

use crate::area::{Area, is_okay};
use crate::store::ByteStore;
use axi_beats::{Addr, Lanes, Resp, WBeat};
use subordinate::{ReadEntry, WriteEntry};

/// The address of a beat of a request, counted from 0.
pub fn beat_address(area: &Area, request: &Addr, beat: u16) -> u64
    requires area { IsMemoryArea area.now }
    requires request { IsRequest area.now.bus request.now }
    requires beat { beat ≤ request.now.len }
    ensures address { result ≡ beat_at request.now beat }
    ensures limit { result < 2 ^ 63 }
{
    burst_address::beat_address(request, u32::from(beat))
}

/// Writes the bytes of the next beat of a write, which is at this address: those that are strobed and
/// may be written. All bytes of a beat have the status of its address, since they lie in one line.
pub fn write_beat(
    store: &mut ByteStore,
    area: &Area,
    entry: &WriteEntry,
    address: u64,
    beat: &WBeat,
)
    requires area { IsMemoryArea area.now }
    requires address { address ≡ beat_at entry.now.request entry.now.taken }
    ensures { store.new ≡ with_bytes store.old (stored_bytes area.now entry.now.request entry.now.taken beat.now) }
{
    if is_okay(area.write_status(address)) {
        let bus = area.bus();
        let width = u64::from(bus);
        store.write_word(address / width * width, bus, beat);
    }
}

/// The worst status of the strobed bytes of the next beat of a write, which is at this address.
pub fn strobed_status(area: &Area, entry: &WriteEntry, address: u64, beat: &WBeat) -> Resp
    requires area { IsMemoryArea area.now }
    requires address { address ≡ beat_at entry.now.request entry.now.taken }
    requires strobe { beat.now.strobe < 2 ^ area.now.bus }
    ensures { result ≡ strobed_status area.now entry.now.request entry.now.taken beat.now }
{
    if beat.strobe == 0 {
        return Resp::Okay;
    }
    area.write_status(address)
}

/// The worst status of the valid bytes of the next beat of a read, which is at this address.
pub fn valid_status(area: &Area, entry: &ReadEntry, address: u64) -> Resp
    requires area { IsMemoryArea area.now }
    requires address { address ≡ beat_at entry.now.request entry.now.put }
    ensures { result ≡ valid_status area.now entry.now.request entry.now.put }
{
    area.read_status(address)
}

/// Sets lanes to those of the next beat of a read, which is at this address: 0 on those that aren't
/// valid, and on all where the bytes can't be read.
pub fn read_lanes(
    lanes: &mut Lanes,
    store: &ByteStore,
    area: &Area,
    entry: &ReadEntry,
    address: u64,
)
    requires area { IsMemoryArea area.now }
    requires entry { IsReadEntry area.now entry.now }
    requires address { address ≡ beat_at entry.now.request entry.now.put }
    requires limit { address < 2 ^ 63 }
    ensures { lanes.new ≡ answered_lanes area.now store.now entry.now.request entry.now.put }
{
    if !is_okay(area.read_status(address)) {
        *lanes = Lanes::zero();
        return;
    }
    let (low, high) = burst_address::lanes(&entry.request, u32::from(entry.put), area.bus());
    store.read_word(lanes, address - u64::from(low), low, high);
}
