//! The rows of a splitter's table: what is put on each channel, and what becomes of the bursts.

ghost use Rattle.std.specs.Prelude.{◌≡◌, ◌<◌, ◌≤◌, ◌++◌, IfSome, IsTrue, Some, length, map, slice_get};
ghost use Rattle.std.specs.Option.{option_copied, option_map};
ghost use Rattle.burst_cuts.specs.Parts.{as_last, part_of};
ghost use Rattle.flight.specs.Entries.{place_of};
ghost use Rattle.node_core.specs.Rows.{put_of};
ghost use Rattle.split_node.specs.SplitLaws.{id_of_split};
ghost use Rattle.split_node.specs.SplitState.{IsCuttable, IsInWork};
ghost use Rattle.split_node.specs.SplitTable.{added, address_row, b_row, one_less, r_row, with_rlast, work_after};

use crate::burst::{InWork, SplitEntry};
use axi_beats::{Addr, BBeat, Burst, RBeat, Resp, WBeat, worst};
use burst_address::{beat_address, legal};
use flight::Flight;
use node_core::{passed, set_put};

/// Whether the request, where there is one, is for a burst that is legal on the widest bus and starts below
/// 2^63.
pub(crate) fn can_be_cut(head: Option<&Addr>) -> bool
    ensures { IsTrue result → IfSome (option_copied head.entry) IsCuttable }
{
    match head {
        Some(request) => request.addr < 1 << 63 && legal(request, 128).is_ok(),
        None => true,
    }
}

/// AW and AR: puts the next part of the burst in work, or the first part of the head, where there is room;
/// for the head also `more`: a further entry fits. Answers the request that is taken.
pub(crate) fn put_part<'a>(
    put: &mut Option<(u32, Addr)>,
    lower: u32,
    work: &mut Option<InWork>,
    head: Option<&'a Addr>,
    room: bool,
    more: bool,
) -> Option<&'a Addr>
    requires work { IfSome work.old IsInWork }
    requires head { IfSome (option_copied head) IsCuttable }
    ensures put { put.new ≡ put_of lower (address_row room more (option_copied head.entry) work.old).put }
    ensures work { work.new ≡ (address_row room more (option_copied head.entry) work.old).work }
    ensures taken { option_copied result ≡ (address_row room more (option_copied head.entry) work.old).taken }
    ensures fact { IfSome work.new IsInWork }
{
    let burst = *work;
    if !room {
        set_put(put, lower, None);
        return None;
    }
    if let Some(burst) = burst {
        put_beat(put, lower, work, &burst.request, burst.next);
        return None;
    }
    let taken = passed(more, head);
    match taken {
        Some(request) => put_beat(put, lower, work, request, 0),
        None => set_put(put, lower, None),
    }
    taken
}

/// Puts the part of a beat of a request; the burst is in work where there are further beats.
fn put_beat(
    put: &mut Option<(u32, Addr)>,
    lower: u32,
    work: &mut Option<InWork>,
    request: &Addr,
    beat: u8,
)
    requires request { IsCuttable request.now }
    requires beat { beat ≤ request.now.len }
    ensures put { put.new ≡ Some (lower, part_of request.now beat) }
    ensures work { work.new ≡ work_after request.now beat }
    ensures fact { IfSome work.new IsInWork }
{
    set_put(put, lower, Some(&part(request, beat)));
    *work = if beat < request.len {
        Some(InWork {
            request: *request,
            next: beat + 1,
        })
    } else {
        None
    };
}

/// A beat of a request, as a burst of its own.
fn part(request: &Addr, beat: u8) -> Addr
    requires request { IsCuttable request.now }
    requires beat { beat ≤ request.now.len }
    ensures { result ≡ part_of request.now beat }
{
    Addr {
        addr: beat_address(request, u32::from(beat)),
        len: 0,
        burst: Burst::Incr,
        ..*request
    }
}

/// AW and AR: a request that is taken becomes the newest entry.
pub(crate) fn note_request(entries: &mut Flight<SplitEntry>, taken: Option<&Addr>)
    requires { IfSome (option_copied taken) (λ request. length entries.old < 16) }
    ensures { entries.new ≡ entries.old ++ added (option_copied taken.entry) }
{
    if let Some(request) = taken {
        entries.push(SplitEntry {
            id: request.id,
            missing: u16::from(request.len) + 1,
            worst: Resp::Okay,
        });
    }
}

/// W: puts a beat as the last one of its part.
pub(crate) fn put_data(put: &mut Option<(u32, WBeat)>, lower: u32, beat: Option<&WBeat>)
    ensures { put.new ≡ put_of lower (option_map as_last (option_copied beat.entry)) }
{
    set_put(put, lower, beat);
    if let Some((_, standing)) = put {
        standing.last = true;
    }
}

/// B: puts the worst response of a write with its last answer, where there is room. Answers the response
/// that is taken.
pub(crate) fn put_response<'a>(
    put: &mut Option<(u32, BBeat)>,
    upper: u32,
    writes: &mut Flight<SplitEntry>,
    head: Option<&'a BBeat>,
    room: bool,
) -> Option<&'a BBeat>
    ensures put { put.new ≡ put_of upper (b_row room (option_copied head.entry) writes.old).put }
    ensures entries { writes.new ≡ (b_row room (option_copied head.entry) writes.old).entries }
    ensures taken { option_copied result ≡ (b_row room (option_copied head.entry) writes.old).taken }
    ensures fewer { length writes.new ≤ length writes.old }
{
    set_put(put, upper, None);
    let Some(beat) = head else {
        return None;
    };
    let Some(place) = writes.oldest(beat.id) else {
        return None;
    };
    let write = *writes.get(place);
    if write.missing > 1 {
        count_answer(writes, beat.id, place, beat.resp);
        return head;
    }
    if !room {
        return None;
    }
    let resp = worst(write.worst, beat.resp);
    set_put(put, upper, Some(&BBeat { resp, ..*beat }));
    count_answer(writes, beat.id, place, beat.resp);
    head
}

/// R: puts the head, where there is room and a read of its ID, with `last` where no further beat is
/// missing. Answers the beat that is taken.
pub(crate) fn put_read_data<'a>(
    put: &mut Option<(u32, RBeat)>,
    upper: u32,
    reads: &mut Flight<SplitEntry>,
    head: Option<&'a RBeat>,
    room: bool,
) -> Option<&'a RBeat>
    ensures put { put.new ≡ put_of upper (r_row room (option_copied head.entry) reads.old).put }
    ensures entries { reads.new ≡ (r_row room (option_copied head.entry) reads.old).entries }
    ensures taken { option_copied result ≡ (r_row room (option_copied head.entry) reads.old).taken }
    ensures fewer { length reads.new ≤ length reads.old }
{
    let Some(beat) = passed(room, head) else {
        set_put(put, upper, None);
        return None;
    };
    let Some(place) = reads.oldest(beat.id) else {
        set_put(put, upper, None);
        return None;
    };
    let more = reads.get(place).missing > 1;
    put_with_last(put, upper, beat, !more);
    count_answer(reads, beat.id, place, Resp::Okay);
    head
}

/// Puts a beat of read data with this `last`.
fn put_with_last(put: &mut Option<(u32, RBeat)>, upper: u32, beat: &RBeat, last: bool)
    ensures { put.new ≡ Some (upper, with_rlast beat.now last) }
{
    set_put(put, upper, Some(beat));
    if let Some((_, standing)) = put {
        standing.last = last;
    }
}

/// One answer less is missing of the oldest entry of an ID, which stands at `place`; it leaves with the
/// last one.
fn count_answer(entries: &mut Flight<SplitEntry>, id: u32, place: usize, response: Resp)
    requires place { place_of id (map id_of_split entries.old) ≡ Some place }
    requires within { place < length entries.old }
    requires key { slice_get (map id_of_split entries.old) place ≡ Some id }
    ensures entries { entries.new ≡ one_less id response entries.old }
    ensures fewer { length entries.new ≤ length entries.old }
{
    let entry = *entries.get(place);
    if entry.missing > 1 {
        entries.set(
            place,
            SplitEntry {
                id,
                missing: entry.missing - 1,
                worst: worst(entry.worst, response),
            },
        );
    } else {
        entries.take(place);
    }
}
