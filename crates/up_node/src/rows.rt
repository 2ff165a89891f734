//! The rows of an up converter's table.

ghost use Rattle.std.specs.Prelude.{◌≡◌, ◌<◌, ◌≤◌, ◌&&◌, All, IfSome, IsTrue, Some, is_some, length, map, slice_get};
ghost use Rattle.std.specs.Option.{option_copied};
ghost use Rattle.node_core.specs.Rows.{beat_where, fits, put_of, take_of};
ghost use Rattle.up_node.specs.UpBeats.{beat_narrowed, beat_shift, beat_widened};
ghost use Rattle.up_node.specs.UpInside.{beat_noted, waiting_of};
ghost use Rattle.up_node.specs.UpState.{IsPassing, IsUpShape};
ghost use Rattle.up_node.specs.UpTable.{data_moved, entries_after_address, entries_after_data, entries_after_read_data, read_data_moved};

use crate::beats::{narrow, shift_of, widen};
use crate::passing::Passing;
use crate::shape::UpShape;
use axi_beats::{Addr, RBeat, WBeat};
use flight::Flight;
use node_core::{Beat, open_put, passed, set_put, set_take};

/// AW and AR: the head, where a further entry fits and there is room below.
pub(crate) fn fitting<'a>(
    entries: &Flight<Passing>,
    room: bool,
    head: Option<&'a Addr>,
) -> Option<&'a Addr>
    ensures { option_copied result ≡ beat_where (fits (map waiting_of entries.now) && room) (option_copied head.entry) }
{
    passed(entries.len() < 16 && room, head)
}

/// AW, AR and B: takes a beat from one link and puts it on the other, where there is one.
pub(crate) fn pass<T: Beat>(
    take: &mut Option<u32>,
    put: &mut Option<(u32, T)>,
    from: u32,
    to: u32,
    beat: Option<&T>,
)
    ensures take { take.new ≡ take_of from (is_some (option_copied beat.entry)) }
    ensures put { put.new ≡ put_of to (option_copied beat.entry) }
{
    set_take(take, from, beat.is_some());
    set_put(put, to, beat);
}

/// AW and AR: the request that goes on, if one does, waits for its beats.
pub(crate) fn note_address(entries: &mut Flight<Passing>, request: Option<&Addr>)
    requires { IsTrue (is_some (option_copied request)) → length entries.old < 16 }
    ensures { map waiting_of entries.new ≡ entries_after_address (option_copied request.entry) (map waiting_of entries.old) }
{
    if let Some(request) = request {
        entries.push(Passing {
            request: *request,
            passed: 0,
        });
    }
}

/// W: where there is room below, takes the head above for the oldest write that lacks data, and puts it
/// below on its lanes.
pub(crate) fn pass_data(
    take: &mut Option<u32>,
    put: &mut Option<(u32, WBeat)>,
    shape: &UpShape,
    room: bool,
    head: Option<&WBeat>,
    entries: &mut Flight<Passing>,
)
    requires shape { IsUpShape shape.now }
    requires entries { All (IsPassing shape.now.narrow) (map waiting_of entries.old) }
    ensures take { take.new ≡ take_of shape.now.upper (is_some (data_moved shape.now room (option_copied head.entry) (map waiting_of entries.old))) }
    ensures put { put.new ≡ put_of shape.now.lower (data_moved shape.now room (option_copied head.entry) (map waiting_of entries.old)) }
    ensures entries { map waiting_of entries.new ≡ entries_after_data (data_moved shape.now room (option_copied head.entry) (map waiting_of entries.old)) (map waiting_of entries.old) }
{
    match head {
        Some(beat) if room && !entries.is_empty() => {
            set_take(take, shape.upper, true);
            put_data(put, shape, beat, entries.get(0));
            note_beat(entries, 0);
        }
        _ => {
            set_take(take, shape.upper, false);
            set_put(put, shape.lower, None);
        }
    }
}

/// Puts a beat below on the lanes of the next beat of an entry.
fn put_data(put: &mut Option<(u32, WBeat)>, shape: &UpShape, beat: &WBeat, entry: &Passing)
    requires shape { IsUpShape shape.now }
    requires entry { IsPassing shape.now.narrow (waiting_of entry.now) }
    ensures { put.new ≡ Some (shape.now.lower, beat_widened shape.now (beat_shift shape.now entry.now.request entry.now.passed) beat.now) }
{
    let shift = shift_of(shape, entry);
    open_put(put, shape.lower);
    if let Some((_, standing)) = put {
        widen(standing, shape, shift, beat);
    }
}

/// R: where there is room above, takes the head below for the oldest read of its ID, and puts it above on
/// its lanes.
pub(crate) fn pass_read_data(
    take: &mut Option<u32>,
    put: &mut Option<(u32, RBeat)>,
    shape: &UpShape,
    room: bool,
    head: Option<&RBeat>,
    entries: &mut Flight<Passing>,
)
    requires shape { IsUpShape shape.now }
    requires entries { All (IsPassing shape.now.narrow) (map waiting_of entries.old) }
    ensures take { take.new ≡ take_of shape.now.lower (is_some (read_data_moved shape.now room (option_copied head.entry) (map waiting_of entries.old))) }
    ensures put { put.new ≡ put_of shape.now.upper (read_data_moved shape.now room (option_copied head.entry) (map waiting_of entries.old)) }
    ensures entries { map waiting_of entries.new
        ≡ entries_after_read_data (read_data_moved shape.now room (option_copied head.entry) (map waiting_of entries.old)) (map waiting_of entries.old) }
{
    if let Some(beat) = head {
        if let Some(place) = entries.oldest(beat.id) {
            if room {
                set_take(take, shape.lower, true);
                put_read_data(put, shape, beat, entries.get(place));
                note_beat(entries, place);
                return;
            }
        }
    }
    set_take(take, shape.lower, false);
    set_put(put, shape.upper, None);
}

/// Puts a beat above from the lanes of the next beat of an entry.
fn put_read_data(put: &mut Option<(u32, RBeat)>, shape: &UpShape, beat: &RBeat, entry: &Passing)
    requires shape { IsUpShape shape.now }
    requires entry { IsPassing shape.now.narrow (waiting_of entry.now) }
    ensures { put.new ≡ Some (shape.now.upper, beat_narrowed shape.now (beat_shift shape.now entry.now.request entry.now.passed) beat.now) }
{
    let shift = shift_of(shape, entry);
    open_put(put, shape.upper);
    if let Some((_, standing)) = put {
        narrow(standing, shape, shift, beat);
    }
}

/// One more beat of the entry at a place has passed; with its last one it leaves.
fn note_beat(entries: &mut Flight<Passing>, place: usize)
    requires within { place < length entries.old }
    requires left { IfSome (slice_get entries.old place) (λ entry. entry.passed ≤ entry.request.len) }
    ensures { entries.new ≡ beat_noted place entries.old }
{
    let entry = *entries.get(place);
    if entry.passed == entry.request.len {
        entries.take(place);
        return;
    }
    entries.set(
        place,
        Passing {
            request: entry.request,
            passed: entry.passed + 1,
        },
    );
}
