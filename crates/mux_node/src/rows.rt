//! The rows of a mux's table: what is taken and put on each channel.

ghost use Rattle.std.specs.Prelude.{◌≡◌, ◌<◌, ◌≤◌, ◌==◌, ◌&&◌, ◌+◌, ◌%◌, IfSome, IsTrue, None, Some, is_some, length, ℕ};
ghost use Rattle.std.specs.Int.{bit_at};
ghost use Rattle.std.specs.Option.{option_copied, option_and_then, option_map};
ghost use Rattle.axi_link.specs.LinkWords.{has_room, head_of, link_of};
ghost use Rattle.mux_node.specs.MuxTable.{CanMux, addresses, answered, ends_burst, granted_left, granted_more, ids_of};
ghost use Rattle.mux_node.specs.MuxTable.{input_moved, narrowed_b, narrowed_r, input_offer, offered_in_turn, put_on_input, put_on_lower};
ghost use Rattle.mux_node.specs.MuxTable.{take_of_input, take_of_lower, turn_behind, unchanged, upper_of, widened};
ghost use Rattle.node_core.specs.Rows.{beat_where, fits};
ghost use Rattle.node_core.specs.Turn.{first_in_turn};

use crate::shape::Shape;
use arrayvec::ArrayVec;
use axi_beats::{Addr, BBeat, RBeat, WBeat};
use axi_link::Link;
use node_core::{HasId, Turn, mark_ready, set_put, set_take};

/// The directions of transactions.
#[derive(Clone, Copy)]
pub(crate) enum Direction {
    Write,
    Read,
}

/// The oldest address of a direction.
fn address(link: &Link, direction: Direction) -> Option<&Addr>
    ensures { option_copied result ≡ head_of (addresses direction link.now) }
{
    match direction {
        Direction::Write => link.head_aw(),
        Direction::Read => link.head_ar(),
    }
}

/// The inputs that offer an address of a direction.
fn offering(links: &[Link], shape: &Shape, direction: Direction) -> u32
    requires { CanMux links.now shape.now }
    ensures { (input : ℕ) → (bit_at result input == 1) ≡ is_some (input_offer (addresses direction) links.now shape.now.uppers input) }
{
    let mut ready = 0;
    for input in 0..shape.inputs() {
        let offers = address(shape.above(links, input), direction).is_some();
        ready = mark_ready(ready, input, offers);
    }
    ready
}

/// Whether a write address may go on: there is room, and few writes lack data.
pub(crate) fn takes_write(below: &Link, granted: &ArrayVec<u8, 16>) -> bool
    ensures { result ≡ (has_room below.now.depth below.now.aw && fits granted.now.items) }
{
    below.room_aw() && granted.len() < 16
}

/// The input whose data goes on.
pub(crate) fn first_granted(granted: &ArrayVec<u8, 16>) -> Option<u8>
    ensures { result ≡ head_of granted.now.items }
{
    granted.as_slice().first().copied()
}

/// The input whose turn it is among those that offer an address of a direction, where one may go on.
pub(crate) fn picked(
    links: &[Link],
    shape: &Shape,
    direction: Direction,
    may: bool,
    turn: &Turn,
) -> Option<u8>
    requires can { CanMux links.now shape.now }
    requires ports { turn.now.ports ≡ length shape.now.uppers }
    ensures input { result ≡ input_moved (beat_where may (offered_in_turn (addresses direction) links.now shape.now.uppers turn.now)) }
    ensures within { IfSome result (λ input. input < length shape.now.uppers) }
    ensures row { option_and_then (input_offer (addresses direction) links.now shape.now.uppers) result ≡ beat_where may (offered_in_turn (addresses direction) links.now shape.now.uppers turn.now) }
{
    if may {
        turn.first(offering(links, shape, direction))
    } else {
        None
    }
}

/// AW and AR: takes the address of an input and puts it below with the input in its ID.
pub(crate) fn pass_address(
    take: &mut Option<u32>,
    put: &mut Option<(u32, Addr)>,
    links: &[Link],
    shape: &Shape,
    direction: Direction,
    input: Option<u8>,
)
    requires can { CanMux links.now shape.now }
    requires within { IfSome input (λ i. i < length shape.now.uppers) }
    ensures take { take.new ≡ take_of_input (option_and_then (input_offer (addresses direction) links.now shape.now.uppers) input) }
    ensures put { put.new ≡ put_on_lower (widened (ids_of shape.now)) shape.now.lower (option_and_then (input_offer (addresses direction) links.now shape.now.uppers) input) }
{
    let Some(input) = input else {
        stay(take, put);
        return;
    };
    let Some(head) = address(shape.above(links, input), direction) else {
        stay(take, put);
        return;
    };
    set_take(take, shape.upper(input), true);
    put_as(
        put,
        shape.lower(),
        head,
        u32::from(input) * shape.ids() + head.id,
    );
}

/// W: takes the data of an input and puts it below, where there is room. Answers whether it was the last
/// beat of its burst.
pub(crate) fn pass_data(
    take: &mut Option<u32>,
    put: &mut Option<(u32, WBeat)>,
    links: &[Link],
    shape: &Shape,
    input: Option<u8>,
) -> bool
    requires can { CanMux links.now shape.now }
    requires within { IfSome input (λ i. i < length shape.now.uppers) }
    ensures take { take.new ≡ take_of_input (beat_where (has_room (link_of links.now shape.now.lower).depth (link_of links.now shape.now.lower).w) (option_and_then (input_offer (λ l. l.w) links.now shape.now.uppers) input)) }
    ensures put { put.new ≡ put_on_lower unchanged shape.now.lower (beat_where (has_room (link_of links.now shape.now.lower).depth (link_of links.now shape.now.lower).w) (option_and_then (input_offer (λ l. l.w) links.now shape.now.uppers) input)) }
    ensures ends { result ≡ ends_burst (beat_where (has_room (link_of links.now shape.now.lower).depth (link_of links.now shape.now.lower).w) (option_and_then (input_offer (λ l. l.w) links.now shape.now.uppers) input)) }
{
    if !shape.below(links).room_w() {
        stay(take, put);
        return false;
    }
    let Some(input) = input else {
        stay(take, put);
        return false;
    };
    let Some(head) = shape.above(links, input).head_w() else {
        stay(take, put);
        return false;
    };
    set_take(take, shape.upper(input), true);
    set_put(put, shape.lower(), Some(head));
    head.last
}

/// B: takes the response below and puts it on the link of the input in its ID, where there is room.
pub(crate) fn pass_response(
    take: &mut Option<u32>,
    put: &mut Option<(u32, BBeat)>,
    links: &[Link],
    shape: &Shape,
)
    requires { CanMux links.now shape.now }
    ensures take { take.new ≡ take_of_lower shape.now.lower (answered (λ l. l.b) (λ b. b.id) links.now shape.now.uppers shape.now.lower (ids_of shape.now)) }
    ensures put { put.new ≡ put_on_input (narrowed_b (ids_of shape.now)) (answered (λ l. l.b) (λ b. b.id) links.now shape.now.uppers shape.now.lower (ids_of shape.now)) }
{
    let Some(head) = shape.below(links).head_b() else {
        stay(take, put);
        return;
    };
    let Some(input) = shape.input_in(head.id) else {
        stay(take, put);
        return;
    };
    if !shape.above(links, input).room_b() {
        stay(take, put);
        return;
    }
    set_take(take, shape.lower(), true);
    put_as(put, shape.upper(input), head, head.id % shape.ids());
}

/// R: takes the read data below and puts it on the link of the input in its ID, where there is room.
pub(crate) fn pass_read_data(
    take: &mut Option<u32>,
    put: &mut Option<(u32, RBeat)>,
    links: &[Link],
    shape: &Shape,
)
    requires { CanMux links.now shape.now }
    ensures take { take.new ≡ take_of_lower shape.now.lower (answered (λ l. l.r) (λ r. r.id) links.now shape.now.uppers shape.now.lower (ids_of shape.now)) }
    ensures put { put.new ≡ put_on_input (narrowed_r (ids_of shape.now)) (answered (λ l. l.r) (λ r. r.id) links.now shape.now.uppers shape.now.lower (ids_of shape.now)) }
{
    let Some(head) = shape.below(links).head_r() else {
        stay(take, put);
        return;
    };
    let Some(input) = shape.input_in(head.id) else {
        stay(take, put);
        return;
    };
    if !shape.above(links, input).room_r() {
        stay(take, put);
        return;
    }
    set_take(take, shape.lower(), true);
    put_as(put, shape.upper(input), head, head.id % shape.ids());
}

/// Nothing is taken or put.
fn stay<T: Copy>(take: &mut Option<u32>, put: &mut Option<(u32, T)>)
    ensures take { take.new ≡ None }
    ensures put { put.new ≡ None }
{
    *take = None;
    // Writing a None over a beat costs as much as writing the beat.
    if put.is_some() {
        *put = None;
    }
}

/// Puts a beat on a link, under another ID.
fn put_as<T: HasId>(put: &mut Option<(u32, T)>, link: u32, beat: &T, id: u32)
    ensures { put.new ≡ Some (link, T.with_id id beat.now) }
{
    set_put(put, link, Some(beat));
    if let Some((_, standing)) = put {
        standing.set_id(id);
    }
}

/// The first granted input leaves where its burst ends.
pub(crate) fn leave(granted: &mut ArrayVec<u8, 16>, ends: bool)
    ensures { granted.new.items ≡ granted_left ends granted.old.items }
{
    if ends && !granted.is_empty() {
        granted.remove(0);
    }
}

/// The input of a write address joins.
pub(crate) fn join(granted: &mut ArrayVec<u8, 16>, input: Option<u8>)
    requires { IsTrue (is_some input) → length granted.old.items < 16 }
    ensures { granted.new.items ≡ granted_more input granted.old.items }
{
    if let Some(input) = input {
        granted.push(input);
    }
}

/// The turn goes on behind an input.
pub(crate) fn turn_to(turn: &mut Turn, input: Option<u8>)
    requires { IfSome input (λ i. i < turn.old.ports) }
    ensures { turn.new ≡ turn_behind turn.old input }
{
    if let Some(input) = input {
        turn.picked(input);
    }
}
