//! What a row of a demux's table does: its take and put, and what becomes of the entries.

ghost use Rattle.std.specs.Prelude.{◌≡◌, ◌<◌, IfSome, IsTrue, is_some, length};
ghost use Rattle.std.specs.Option.{option_copied};
ghost use Rattle.demux_node.specs.DemuxTable.{by_port, close_oldest, put_above, put_below, reads_after_ar, reads_after_r};
ghost use Rattle.demux_node.specs.DemuxTable.{take_below, turn_after, writes_after_aw, writes_after_b, writes_after_w};
ghost use Rattle.demux_node.specs.DemuxTable.{id_of_route, id_of_write};
ghost use Rattle.node_core.specs.Rows.{take_of};
ghost use Rattle.plain_lists.specs.Keys.{without_oldest};

use crate::route::{Route, WriteRoute};
use crate::rows::oldest_open;
use crate::shape::Shape;
use axi_beats::{Addr, BBeat, RBeat, WBeat};
use flight::Flight;
use node_core::{Turn, passed, set_put, set_take};

/// AW and AR: takes the head above and puts it on the link of a port, where there are both.
#[tactic(auto, using(crate::proofs::MoveLemmas::down_take, crate::proofs::MoveLemmas::down_put))]
pub(crate) fn pass_address(
    take: &mut Option<u32>,
    put: &mut Option<(u32, Addr)>,
    shape: &Shape,
    port: Option<u8>,
    head: Option<&Addr>,
)
    requires { IfSome port (λ p. p < length shape.now.lowers) }
    ensures take { take.new ≡ take_of shape.now.upper (is_some (by_port port (option_copied head.entry))) }
    ensures put { put.new ≡ put_below shape.now (by_port port (option_copied head.entry)) }
{
    let head = passed(port.is_some(), head);
    set_take(take, shape.upper(), head.is_some());
    set_put(put, shape.lower_by(port), head);
}

/// W: the same of write data.
#[tactic(auto, using(crate::proofs::MoveLemmas::down_take, crate::proofs::MoveLemmas::down_put))]
pub(crate) fn pass_data(
    take: &mut Option<u32>,
    put: &mut Option<(u32, WBeat)>,
    shape: &Shape,
    port: Option<u8>,
    head: Option<&WBeat>,
)
    requires { IfSome port (λ p. p < length shape.now.lowers) }
    ensures take { take.new ≡ take_of shape.now.upper (is_some (by_port port (option_copied head.entry))) }
    ensures put { put.new ≡ put_below shape.now (by_port port (option_copied head.entry)) }
{
    let head = passed(port.is_some(), head);
    set_take(take, shape.upper(), head.is_some());
    set_put(put, shape.lower_by(port), head);
}

/// B: takes the head of a port's link and puts it above, where there are both.
#[tactic(auto, using(crate::proofs::MoveLemmas::up_take, crate::proofs::MoveLemmas::up_put))]
pub(crate) fn pass_response(
    take: &mut Option<u32>,
    put: &mut Option<(u32, BBeat)>,
    shape: &Shape,
    port: Option<u8>,
    head: Option<&BBeat>,
)
    requires { IfSome port (λ p. p < length shape.now.lowers) }
    ensures take { take.new ≡ take_below shape.now (by_port port (option_copied head.entry)) }
    ensures put { put.new ≡ put_above shape.now (by_port port (option_copied head.entry)) }
{
    let head = passed(port.is_some(), head);
    set_take(take, shape.lower_by(port), head.is_some());
    set_put(put, shape.upper(), head);
}

/// R: the same of read data.
#[tactic(auto, using(crate::proofs::MoveLemmas::up_take, crate::proofs::MoveLemmas::up_put))]
pub(crate) fn pass_read_data(
    take: &mut Option<u32>,
    put: &mut Option<(u32, RBeat)>,
    shape: &Shape,
    port: Option<u8>,
    head: Option<&RBeat>,
)
    requires { IfSome port (λ p. p < length shape.now.lowers) }
    ensures take { take.new ≡ take_below shape.now (by_port port (option_copied head.entry)) }
    ensures put { put.new ≡ put_above shape.now (by_port port (option_copied head.entry)) }
{
    let head = passed(port.is_some(), head);
    set_take(take, shape.lower_by(port), head.is_some());
    set_put(put, shape.upper(), head);
}

/// W: with its last beat the oldest write that lacks data has all of it.
pub(crate) fn note_data(writes: &mut Flight<WriteRoute>, port: Option<u8>, head: Option<&WBeat>)
    ensures { writes.new ≡ writes_after_w (by_port port (option_copied head.entry)) writes.old }
{
    if port.is_none() {
        return;
    }
    let Some(beat) = head else {
        return;
    };
    if beat.last {
        close_oldest(writes);
    }
}

fn close_oldest(writes: &mut Flight<WriteRoute>)
    ensures { writes.new ≡ close_oldest writes.old }
{
    if let Some(place) = oldest_open(writes) {
        let write = *writes.get(place);
        writes.set(
            place,
            WriteRoute {
                is_open: false,
                ..write
            },
        );
    }
}

/// B: the oldest write of its ID leaves.
pub(crate) fn note_response(writes: &mut Flight<WriteRoute>, port: Option<u8>, head: Option<&BBeat>)
    ensures { writes.new ≡ writes_after_b (by_port port (option_copied head.entry)) writes.old }
{
    if port.is_none() {
        return;
    }
    let Some(beat) = head else {
        return;
    };
    drop_write(writes, beat.id);
}

/// The oldest write of an ID leaves.
fn drop_write(writes: &mut Flight<WriteRoute>, id: u32)
    ensures { writes.new ≡ without_oldest id_of_write id writes.old }
{
    if let Some(place) = writes.oldest(id) {
        writes.take(place);
    }
}

/// AW: the write becomes the newest entry, and lacks its data.
pub(crate) fn note_write(writes: &mut Flight<WriteRoute>, port: Option<u8>, head: Option<&Addr>)
    requires { IsTrue (is_some port) → length writes.old < 16 }
    ensures { writes.new ≡ writes_after_aw (by_port port (option_copied head.entry)) writes.old }
{
    let Some(port) = port else {
        return;
    };
    let Some(request) = head else {
        return;
    };
    writes.push(WriteRoute {
        id: request.id,
        port,
        is_open: true,
    });
}

/// R: with the last beat the oldest read of its ID leaves.
pub(crate) fn note_read_data(reads: &mut Flight<Route>, port: Option<u8>, head: Option<&RBeat>)
    ensures { reads.new ≡ reads_after_r (by_port port (option_copied head.entry)) reads.old }
{
    if port.is_none() {
        return;
    }
    let Some(beat) = head else {
        return;
    };
    if beat.last {
        drop_read(reads, beat.id);
    }
}

/// The oldest read of an ID leaves.
fn drop_read(reads: &mut Flight<Route>, id: u32)
    ensures { reads.new ≡ without_oldest id_of_route id reads.old }
{
    if let Some(place) = reads.oldest(id) {
        reads.take(place);
    }
}

/// AR: the read becomes the newest entry.
pub(crate) fn note_read(reads: &mut Flight<Route>, port: Option<u8>, head: Option<&Addr>)
    requires { IsTrue (is_some port) → length reads.old < 16 }
    ensures { reads.new ≡ reads_after_ar (by_port port (option_copied head.entry)) reads.old }
{
    let Some(port) = port else {
        return;
    };
    let Some(request) = head else {
        return;
    };
    reads.push(Route {
        id: request.id,
        port,
    });
}

/// Where a beat was moved by a port, the turn goes on behind it.
pub(crate) fn turn_to<T: Copy>(turn: &mut Turn, port: Option<u8>, head: Option<&T>)
    requires { IfSome port (λ p. p < turn.old.ports) }
    ensures { turn.new ≡ turn_after (by_port port (option_copied head.entry)) turn.old }
{
    let Some(port) = port else {
        return;
    };
    if head.is_some() {
        turn.picked(port);
    }
}
