//! The rows of a remapper's table: under which ID the head of each channel goes on, if it does.

ghost use Rattle.std.specs.Prelude.{◌≡◌, ◌==◌};
ghost use Rattle.std.specs.Option.{option_copied};
ghost use Rattle.remap_node.specs.RemapTable.{answer_id, input_in_flight, is_free, least_free, output_for, output_in_flight, request_id};

use crate::pair::IdPair;
use axi_beats::Addr;
use flight::Flight;
use node_core::HasId;

/// AW and AR: the ID of the head below, of so many, where one more request fits, there is room, and an ID
/// is there for it.
pub(crate) fn request_id(
    pairs: &Flight<IdPair>,
    ids: u32,
    room: bool,
    head: Option<&Addr>,
) -> Option<u32>
    ensures { result ≡ request_id pairs.now ids room (option_copied head.entry) }
{
    let head = head?;
    if pairs.len() < 16 && room {
        output_for(pairs, ids, head.id)
    } else {
        None
    }
}

/// The ID of a request below: that of the requests in flight with its ID, else the least free one.
fn output_for(pairs: &Flight<IdPair>, ids: u32, id: u32) -> Option<u32>
    ensures { result ≡ output_for pairs.now ids id }
{
    match output_in_flight(pairs, id) {
        Some(output) => Some(output),
        None => least_free(pairs, ids),
    }
}

/// The ID below of the oldest request in flight with this ID above.
fn output_in_flight(pairs: &Flight<IdPair>, id: u32) -> Option<u32>
    ensures { result ≡ output_in_flight pairs.now id }
{
    for place in 0..pairs.len() {
        let pair = pairs.get(place);
        if pair.input == id {
            return Some(pair.output);
        }
    }
    None
}

/// The least of so many IDs that no request in flight has below.
fn least_free(pairs: &Flight<IdPair>, ids: u32) -> Option<u32>
    ensures { result ≡ least_free pairs.now ids }
{
    for id in 0..ids {
        if is_free(pairs, id) {
            return Some(id);
        }
    }
    None
}

fn is_free(pairs: &Flight<IdPair>, id: u32) -> bool
    ensures { result ≡ is_free pairs.now id }
{
    input_in_flight(pairs, id).is_none()
}

/// The ID above of the oldest request in flight with this ID below.
fn input_in_flight(pairs: &Flight<IdPair>, id: u32) -> Option<u32>
    ensures { result ≡ input_in_flight pairs.now id }
{
    match pairs.oldest(id) {
        Some(place) => Some(pairs.get(place).input),
        None => None,
    }
}

/// B and R: the ID of the head above, where there is room and a request in flight has its ID below.
pub(crate) fn answer_id<T: HasId>(
    pairs: &Flight<IdPair>,
    room: bool,
    head: Option<&T>,
) -> Option<u32>
    ensures { result ≡ answer_id T.id_of pairs.now room (option_copied head.entry) }
{
    let head = head?;
    if room {
        input_in_flight(pairs, head.id())
    } else {
        None
    }
}
