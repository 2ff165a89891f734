//! The data rows of a memory's table, which look into its bytes: W and R.

ghost use Rattle.std.specs.Prelude.{◌≡◌, ◌<◌, ◌^◌, All, IfSome, Some, is_some, option_copied, option_map};
ghost use Rattle.axi_link.specs.LinkWords.{head_of};
ghost use Rattle.memory_node.specs.MemoryArea.{IsMemoryArea};
ghost use Rattle.memory_node.specs.MemoryState.{IsReadEntry, IsWriteEntry};
ghost use Rattle.memory_node.specs.MemoryTable.{memory_service};
ghost use Rattle.node_core.specs.Rows.{beat_where, put_of, take_of};
ghost use Rattle.subordinate.specs.SubordinateTable.{after_r, after_w, kept_after_w, next_beat};

use crate::area::Area;
use crate::beats::{beat_address, read_lanes, strobed_status, valid_status, write_beat};
use crate::store::ByteStore;
use axi_beats::{RBeat, WBeat};
use flight::Flight;
use node_core::{open_put, set_put, set_take};
use subordinate::{ReadEntry, WriteEntry, lacking, note_put, with_status};

/// W: where the row is done the head is taken for the oldest write that lacks data; its bytes are
/// written, and their status goes into that write's response.
pub fn take_w(
    take: &mut Option<u32>,
    number: u32,
    done: bool,
    head: Option<&WBeat>,
    area: &Area,
    entries: &mut Flight<WriteEntry>,
    store: &mut ByteStore,
)
    requires area { IsMemoryArea area.now }
    requires writes { All (IsWriteEntry area.now store.old.lines) entries.old }
    requires strobe { IfSome (option_copied head) (λ w. w.strobe < 2 ^ area.now.bus) }
    ensures take { take.new ≡ take_of number (is_some (beat_where done (option_copied head.entry))) }
    ensures entries { entries.new ≡ after_w (memory_service area.now) (beat_where done (option_copied head.entry)) entries.old }
    ensures store { store.new ≡ kept_after_w (memory_service area.now) (beat_where done (option_copied head.entry)) entries.old store.old }
{
    match head {
        Some(beat) if done => {
            set_take(take, number, true);
            take_data(beat, area, entries, store);
        }
        _ => set_take(take, number, false),
    }
}

/// Takes a beat of data for the oldest write that lacks some.
fn take_data(beat: &WBeat, area: &Area, entries: &mut Flight<WriteEntry>, store: &mut ByteStore)
    requires area { IsMemoryArea area.now }
    requires writes { All (IsWriteEntry area.now store.old.lines) entries.old }
    requires strobe { beat.now.strobe < 2 ^ area.now.bus }
    ensures entries { entries.new ≡ after_w (memory_service area.now) (Some beat.now) entries.old }
    ensures store { store.new ≡ kept_after_w (memory_service area.now) (Some beat.now) entries.old store.old }
{
    let Some(place) = lacking(entries) else {
        return;
    };
    let entry = *entries.get(place);
    let address = beat_address(area, &entry.request, entry.taken);
    let status = strobed_status(area, &entry, address, beat);
    write_beat(store, area, &entry, address, beat);
    entries.set(place, with_status(entry, status));
}

/// R: where the row is done the next beat of the oldest read is put; with its last one it leaves.
pub fn put_r(
    put: &mut Option<(u32, RBeat)>,
    number: u32,
    done: bool,
    area: &Area,
    entries: &mut Flight<ReadEntry>,
    store: &ByteStore,
)
    requires area { IsMemoryArea area.now }
    requires reads { All (IsReadEntry area.now) entries.old }
    ensures put { put.new ≡ put_of number (beat_where done (option_map (next_beat (memory_service area.now) store.now) (head_of entries.old))) }
    ensures entries { entries.new ≡ after_r (beat_where done (option_map (next_beat (memory_service area.now) store.now) (head_of entries.old))) entries.old }
{
    if !done || entries.is_empty() {
        set_put(put, number, None);
        return;
    }
    open_put(put, number);
    let entry = *entries.get(0);
    if let Some((_, beat)) = put {
        write_answer(beat, area, &entry, store);
    }
    note_put(entries, entry.put == u16::from(entry.request.len));
}

/// Becomes the next beat of the answer to a read.
fn write_answer(beat: &mut RBeat, area: &Area, entry: &ReadEntry, store: &ByteStore)
    requires area { IsMemoryArea area.now }
    requires entry { IsReadEntry area.now entry.now }
    ensures { beat.new ≡ next_beat (memory_service area.now) store.now entry.now }
{
    let address = beat_address(area, &entry.request, entry.put);
    beat.id = entry.request.id;
    beat.resp = valid_status(area, entry, address);
    beat.last = entry.put == u16::from(entry.request.len);
    beat.tag = entry.request.tag;
    read_lanes(&mut beat.lanes, store, area, entry, address);
}
