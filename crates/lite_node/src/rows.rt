//! The rows of a bridge's table: what is taken and put on each channel.

ghost use Rattle.std.specs.Prelude.{◌≡◌, ◌<◌, ◌^◌, IfSome, IsTrue, None, is_some, length, option_copied, option_map};
ghost use Rattle.axi_beats.specs.Bus.{IsBusWidth};
ghost use Rattle.burst_address.specs.Legal.{IsLegal};
ghost use Rattle.axi_link.specs.LinkWords.{head_of};
ghost use Rattle.node_core.specs.Rows.{put_of, take_of};
ghost use Rattle.lite_node.specs.LiteTable.{ids_left, ids_more, returned_b, returned_r, returned_to, word_request};

use arrayvec::ArrayVec;
use axi_beats::{Addr, BBeat, Burst, RBeat};
use burst_address::{lanes, legal};
use node_core::{set_put, set_take};

/// Whether a request may go on, where there is one: it is for a legal burst below 2^63.
pub(crate) fn can_pass(head: Option<&Addr>, bus: u8) -> bool
    requires { IsBusWidth bus }
    ensures legal { IsTrue result → IfSome (option_copied head.entry) (λ a. IsLegal a bus) }
    ensures small { IsTrue result → IfSome (option_copied head.entry) (λ a. a.addr < 2 ^ 63) }
{
    match head {
        Some(request) => request.addr < 1 << 63 && legal(request, bus).is_ok(),
        None => true,
    }
}

/// AW and AR: takes an address, where one goes on, and puts the request for its word.
pub(crate) fn pass_address(
    take: &mut Option<u32>,
    put: &mut Option<(u32, Addr)>,
    from: u32,
    to: u32,
    bus: u8,
    head: Option<&Addr>,
)
    requires bus { IsBusWidth bus }
    requires legal { IfSome (option_copied head) (λ a. IsLegal a bus) }
    requires small { IfSome (option_copied head) (λ a. a.addr < 2 ^ 63) }
    ensures take { take.new ≡ take_of from (is_some (option_copied head.entry)) }
    ensures put { put.new ≡ put_of to (option_map (word_request bus) (option_copied head.entry)) }
{
    set_take(take, from, head.is_some());
    set_put(put, to, head);
    if let Some((_, request)) = put {
        ask_for_word(request, bus);
    }
}

/// Becomes the request for the whole word that it starts in.
fn ask_for_word(request: &mut Addr, bus: u8)
    requires bus { IsBusWidth bus }
    requires legal { IsLegal request.old bus }
    requires small { request.old.addr < 2 ^ 63 }
    ensures { request.new ≡ word_request bus request.old }
{
    let (low, high) = lanes(request, 0, bus);
    let width = u64::from(bus);
    request.id = 0;
    request.addr = request.addr / width * width;
    request.len = 0;
    request.size = bus.trailing_zeros() as u8;
    request.burst = Burst::Incr;
    request.tag.low = low;
    request.tag.high = high;
}

/// B: takes the response below, where one may go up, and puts it under the ID of the oldest write, if there
/// is one. Answers whether it does.
pub(crate) fn pass_response(
    take: &mut Option<u32>,
    put: &mut Option<(u32, BBeat)>,
    from: u32,
    to: u32,
    ids: &ArrayVec<u32, 16>,
    head: Option<&BBeat>,
) -> bool
    ensures moves { result ≡ is_some (returned_to returned_b ids.now.items (option_copied head.entry)) }
    ensures take { take.new ≡ take_of from (is_some (returned_to returned_b ids.now.items (option_copied head.entry))) }
    ensures put { put.new ≡ put_of to (returned_to returned_b ids.now.items (option_copied head.entry)) }
{
    let Some(id) = oldest(ids) else {
        stay(take, put);
        return false;
    };
    set_take(take, from, head.is_some());
    set_put(put, to, head);
    if let Some((_, response)) = put {
        response.id = id;
        response.tag.low = 0;
        response.tag.high = 0;
    }
    head.is_some()
}

/// R: takes the read data below, where it may go up, and puts it under the ID of the oldest read, if there
/// is one. Answers whether it does.
pub(crate) fn pass_read_data(
    take: &mut Option<u32>,
    put: &mut Option<(u32, RBeat)>,
    from: u32,
    to: u32,
    ids: &ArrayVec<u32, 16>,
    head: Option<&RBeat>,
) -> bool
    ensures moves { result ≡ is_some (returned_to returned_r ids.now.items (option_copied head.entry)) }
    ensures take { take.new ≡ take_of from (is_some (returned_to returned_r ids.now.items (option_copied head.entry))) }
    ensures put { put.new ≡ put_of to (returned_to returned_r ids.now.items (option_copied head.entry)) }
{
    let Some(id) = oldest(ids) else {
        stay(take, put);
        return false;
    };
    set_take(take, from, head.is_some());
    set_put(put, to, head);
    if let Some((_, beat)) = put {
        beat.id = id;
        beat.tag.low = 0;
        beat.tag.high = 0;
    }
    head.is_some()
}

/// The ID of the oldest request.
fn oldest(ids: &ArrayVec<u32, 16>) -> Option<u32>
    ensures { result ≡ head_of ids.now.items }
{
    ids.as_slice().first().copied()
}

/// Nothing is taken or put.
fn stay<T: Copy>(take: &mut Option<u32>, put: &mut Option<(u32, T)>)
    ensures take { take.new ≡ None }
    ensures put { put.new ≡ None }
{
    *take = None;
    // Writing a None over a beat costs as much as writing the beat.
    if put.is_some() {
        *put = None;
    }
}

/// The oldest request leaves where it is answered.
pub(crate) fn leave(ids: &mut ArrayVec<u32, 16>, answered: bool)
    ensures { ids.new.items ≡ ids_left answered ids.old.items }
{
    if answered && !ids.is_empty() {
        ids.remove(0);
    }
}

/// The ID of an address joins.
pub(crate) fn join(ids: &mut ArrayVec<u32, 16>, head: Option<&Addr>)
    requires { IsTrue (is_some (option_copied head)) → length ids.old.items < 16 }
    ensures { ids.new.items ≡ ids_more (option_copied head.entry) ids.old.items }
{
    if let Some(request) = head {
        ids.push(request.id);
    }
}
