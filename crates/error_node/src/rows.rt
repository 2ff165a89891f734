//! The data rows of an error subordinate's table: W and R.

ghost use Rattle.std.specs.Prelude.{◌≡◌, All, Some, is_some, option_copied, option_map};
ghost use Rattle.axi_link.specs.LinkWords.{head_of};
ghost use Rattle.error_node.specs.ErrorTable.{error_service};
ghost use Rattle.node_core.specs.Rows.{beat_where, put_of, take_of};
ghost use Rattle.subordinate.specs.SubordinateState.{HasABeat};
ghost use Rattle.subordinate.specs.SubordinateTable.{after_r, after_w, next_beat};

use axi_beats::{Lanes, RBeat, Resp, WBeat};
use flight::Flight;
use node_core::{open_put, set_put, set_take};
use subordinate::{ReadEntry, WriteEntry, lacking, note_put, with_status};

/// W: where the row is done the head is taken for the oldest write that lacks data.
pub fn take_w(
    take: &mut Option<u32>,
    number: u32,
    done: bool,
    head: Option<&WBeat>,
    entries: &mut Flight<WriteEntry>,
)
    ensures take { take.new ≡ take_of number (is_some (beat_where done (option_copied head.entry))) }
    ensures entries { entries.new ≡ after_w error_service (beat_where done (option_copied head.entry)) entries.old }
{
    match head {
        Some(beat) if done => {
            set_take(take, number, true);
            take_data(beat, entries);
        }
        _ => set_take(take, number, false),
    }
}

/// Takes a beat of data for the oldest write that lacks some. None of its bytes is written.
fn take_data(_beat: &WBeat, entries: &mut Flight<WriteEntry>)
    ensures { entries.new ≡ after_w error_service (Some _beat.now) entries.old }
{
    let Some(place) = lacking(entries) else {
        return;
    };
    let entry = *entries.get(place);
    entries.set(place, with_status(entry, Resp::DecErr));
}

/// R: where the row is done the next beat of the oldest read is put; with its last one it leaves.
pub fn put_r(
    put: &mut Option<(u32, RBeat)>,
    number: u32,
    done: bool,
    entries: &mut Flight<ReadEntry>,
)
    requires { All HasABeat entries.old }
    ensures put { put.new ≡ put_of number (beat_where done (option_map (next_beat error_service tt) (head_of entries.old))) }
    ensures entries { entries.new ≡ after_r (beat_where done (option_map (next_beat error_service tt) (head_of entries.old))) entries.old }
{
    if !done || entries.is_empty() {
        set_put(put, number, None);
        return;
    }
    open_put(put, number);
    let entry = *entries.get(0);
    if let Some((_, beat)) = put {
        write_answer(beat, &entry);
    }
    note_put(entries, entry.put == u16::from(entry.request.len));
}

/// Becomes the next beat of the answer to a read, whose lanes are all 0.
fn write_answer(beat: &mut RBeat, entry: &ReadEntry)
    ensures { beat.new ≡ next_beat error_service tt entry.now }
{
    beat.id = entry.request.id;
    beat.resp = Resp::DecErr;
    beat.last = entry.put == u16::from(entry.request.len);
    beat.tag = entry.request.tag;
    beat.lanes = Lanes::zero();
}
