//! The rows of a subordinate's table: which of them are wanted, and how those of AW, AR and B are done,
//! which are the same for all subordinates. Data is taken in the order of the addresses, and requests
//! are answered in it. (Arm IHI 0022, relationships between the channels.)

ghost use Rattle.std.specs.Prelude.{◌≡◌, ◌<◌, ◌+◌, ◌&&◌, IfSome, IsTrue, false, length, option_copied, option_map, is_some};
ghost use Rattle.axi_link.specs.LinkWords.{head_of};
ghost use Rattle.node_core.specs.Rows.{beat_where, fits, put_of, take_of};
ghost use Rattle.subordinate.specs.SubordinateTable.{after_ar, after_aw, after_b, answer_to};
ghost use Rattle.subordinate.specs.SubordinateTable.{first_is_whole, lacks_data, oldest_lacking, wanted_rows, with_beat, with_put};
ghost use Rattle.subordinate.specs.Places.{lacking_place};

use crate::entry::{ReadEntry, WriteEntry};
use axi_beats::{Addr, BBeat, Resp, WBeat, worst};
use axi_link::Link;
use flight::{Filed, Flight};
use node_core::{EachRow, set_put, set_take};

/// The rows whose condition holds as a round begins.
pub fn wanted(link: &Link, writes: &Flight<WriteEntry>, reads: &Flight<ReadEntry>) -> EachRow
    ensures { result ≡ wanted_rows link.now writes.now reads.now }
{
    EachRow {
        aw: takes_address(link.head_aw(), writes),
        w: takes_data(link.head_w(), writes),
        b: answers(link.room_b(), writes),
        ar: takes_address(link.head_ar(), reads),
        r: puts_data(link.room_r(), reads),
    }
}

fn takes_address<T: Filed>(head: Option<&Addr>, entries: &Flight<T>) -> bool
    ensures { result ≡ (is_some (option_copied head.entry) && fits entries.now) }
{
    head.is_some() && entries.len() < 16
}

fn takes_data(head: Option<&WBeat>, entries: &Flight<WriteEntry>) -> bool
    ensures { result ≡ (is_some (option_copied head.entry) && is_some (oldest_lacking entries.now)) }
{
    head.is_some() && lacking(entries).is_some()
}

fn answers(room: bool, entries: &Flight<WriteEntry>) -> bool
    ensures { result ≡ (room && first_is_whole entries.now) }
{
    room && is_first_whole(entries)
}

fn puts_data(room: bool, entries: &Flight<ReadEntry>) -> bool
    ensures { result ≡ (room && is_some (head_of entries.now)) }
{
    room && !entries.is_empty()
}

/// Whether a data beat of a write isn't taken yet.
fn is_lacking(entry: &WriteEntry) -> bool
    ensures { result ≡ lacks_data entry.now }
{
    entry.taken <= u16::from(entry.request.len)
}

/// Whether the oldest write has all its data.
fn is_first_whole(entries: &Flight<WriteEntry>) -> bool
    ensures { result ≡ first_is_whole entries.now }
{
    !entries.is_empty() && !is_lacking(entries.get(0))
}

/// The place of the oldest write that lacks data.
pub fn lacking(entries: &Flight<WriteEntry>) -> Option<usize>
    ensures place { result ≡ lacking_place entries.now }
    ensures within { IfSome result (λ place. place < length entries.now) }
    ensures some { is_some result ≡ is_some (oldest_lacking entries.now) }
{
    for place in 0..entries.len() {
        if is_lacking(entries.get(place)) {
            return Some(place);
        }
    }
    None
}

/// A write that lacks data, with one more data beat of this status.
pub fn with_status(entry: WriteEntry, status: Resp) -> WriteEntry
    requires { IsTrue (lacks_data entry) }
    ensures { result ≡ with_beat status entry }
{
    WriteEntry {
        request: entry.request,
        taken: entry.taken + 1,
        worst: worst(entry.worst, status),
    }
}

/// B: where the row is done the oldest write is answered, and leaves.
pub fn put_b(
    put: &mut Option<(u32, BBeat)>,
    number: u32,
    done: bool,
    entries: &mut Flight<WriteEntry>,
)
    ensures put { put.new ≡ put_of number (beat_where done (option_map answer_to (head_of entries.old))) }
    ensures entries { entries.new ≡ after_b (beat_where done (option_map answer_to (head_of entries.old))) entries.old }
{
    if !done || entries.is_empty() {
        set_put(put, number, None);
        return;
    }
    let entry = entries.take(0);
    let response = BBeat {
        id: entry.request.id,
        resp: entry.worst,
        tag: entry.request.tag,
    };
    set_put(put, number, Some(&response));
}

/// R: notes that the oldest read has one more beat put. With its last one it leaves.
pub fn note_put(entries: &mut Flight<ReadEntry>, last: bool)
    requires some { 0 < length entries.old }
    requires more { last ≡ false → IfSome (head_of entries.old) (λ entry. entry.put < entry.request.len) }
    ensures { entries.new ≡ with_put last entries.old }
{
    if last {
        entries.take(0);
        return;
    }
    let entry = *entries.get(0);
    entries.set(
        0,
        ReadEntry {
            request: entry.request,
            put: entry.put + 1,
        },
    );
}

/// AW: where the row is done the head is taken, and the write waits for its data.
pub fn take_aw(
    take: &mut Option<u32>,
    number: u32,
    done: bool,
    head: Option<&Addr>,
    entries: &mut Flight<WriteEntry>,
)
    requires { IsTrue done → length entries.old < 16 }
    ensures take { take.new ≡ take_of number (is_some (beat_where done (option_copied head.entry))) }
    ensures entries { entries.new ≡ after_aw (beat_where done (option_copied head.entry)) entries.old }
{
    match head {
        Some(request) if done => {
            set_take(take, number, true);
            entries.push(WriteEntry {
                request: *request,
                taken: 0,
                worst: Resp::Okay,
            });
        }
        _ => set_take(take, number, false),
    }
}

/// AR: where the row is done the head is taken, and the read waits for its beats.
pub fn take_ar(
    take: &mut Option<u32>,
    number: u32,
    done: bool,
    head: Option<&Addr>,
    entries: &mut Flight<ReadEntry>,
)
    requires { IsTrue done → length entries.old < 16 }
    ensures take { take.new ≡ take_of number (is_some (beat_where done (option_copied head.entry))) }
    ensures entries { entries.new ≡ after_ar (beat_where done (option_copied head.entry)) entries.old }
{
    match head {
        Some(request) if done => {
            set_take(take, number, true);
            entries.push(ReadEntry {
                request: *request,
                put: 0,
            });
        }
        _ => set_take(take, number, false),
    }
}
