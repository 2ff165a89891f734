//! What stands on a memory's link, and whether it may come to the memory.

ghost use Rattle.std.specs.Prelude.{◌≡◌, ◌<◌, ◌≤◌, ◌^◌, Contains, IfSome, IsTrue, option_copied};
ghost use Rattle.axi_beats.specs.Bus.{IsBusWidth};
ghost use Rattle.burst_address.specs.Lanes.{word_address};
ghost use Rattle.memory_node.specs.MemoryArea.{IsMemoryArea, is_inside};
ghost use Rattle.memory_node.specs.MemoryState.{AreLinesAmong, IsRequest};
ghost use Rattle.memory_node.specs.Store.{line_number};

use crate::area::Area;
use crate::beats::beat_address;
use crate::store::ByteStore;
use axi_beats::{Addr, WBeat};
use burst_address::legal;

/// Whether the request, if there is one, is for a legal burst on the bus, below 2^63.
pub fn can_be_done(head: Option<&Addr>, bus: u8) -> bool
    requires bus { IsBusWidth bus }
    ensures { IsTrue result → IfSome (option_copied head.entry) (IsRequest bus) }
{
    match head {
        Some(request) => request.addr < 1 << 63 && legal(request, bus).is_ok(),
        None => true,
    }
}

/// Whether the lines of the write, if there is one, that lie in the memory are kept.
pub fn has_its_lines(head: Option<&Addr>, area: &Area, store: &ByteStore) -> bool
    requires area { IsMemoryArea area.now }
    requires request { IfSome (option_copied head) (IsRequest area.now.bus) }
    ensures { IsTrue result → IfSome (option_copied head.entry) (AreLinesAmong area.now store.now.lines) }
{
    match head {
        Some(request) => keeps_lines(store, area, request),
        None => true,
    }
}

/// Whether the strobes of the data, if there is some, are on lanes of the bus.
pub fn is_on_bus(head: Option<&WBeat>, bus: u8) -> bool
    requires bus { IsBusWidth bus }
    ensures { IsTrue result → IfSome (option_copied head.entry) (λ w. w.strobe < 2 ^ bus) }
{
    match head {
        Some(beat) => has_narrow_strobe(beat.strobe, bus),
        None => true,
    }
}

/// Whether no strobe stands above the lanes of a bus.
fn has_narrow_strobe(strobe: u128, bus: u8) -> bool
    requires bus { IsBusWidth bus }
    ensures { IsTrue result → strobe < 2 ^ bus }
{
    bus == 128 || strobe >> bus == 0
}

/// Whether each line of a request's beats that lies in the memory is kept.
fn keeps_lines(store: &ByteStore, area: &Area, request: &Addr) -> bool
    requires area { IsMemoryArea area.now }
    requires request { IsRequest area.now.bus request.now }
    ensures { IsTrue result → AreLinesAmong area.now store.now.lines request.now }
{
    for beat in 0..u16::from(request.len) + 1 {
        if !keeps_line(store, area, request, beat) {
            return false;
        }
    }
    true
}

/// Whether the line of a beat is kept, where it lies in the memory.
fn keeps_line(store: &ByteStore, area: &Area, request: &Addr, beat: u16) -> bool
    requires area { IsMemoryArea area.now }
    requires request { IsRequest area.now.bus request.now }
    requires beat { beat ≤ request.now.len }
    ensures { IsTrue result → IsTrue (is_inside area.now (word_address request.now beat area.now.bus)) →
        Contains store.now.lines (line_number (word_address request.now beat area.now.bus)) }
{
    let width = u64::from(area.bus());
    let word = beat_address(area, request, beat) / width * width;
    !area.is_inside(word) || store.keeps(word)
}
