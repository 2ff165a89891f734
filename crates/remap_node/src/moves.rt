//! What a row of a remapper's table does: its take and put, and what becomes of the pairs.

ghost use Rattle.std.specs.Prelude.{◌≡◌, ◌<◌, IsTrue, is_some, length, unwrap_or};
ghost use Rattle.std.specs.Option.{option_copied, option_map};
ghost use Rattle.node_core.specs.Rows.{put_of, take_of};
ghost use Rattle.plain_lists.specs.Keys.{without_oldest};
ghost use Rattle.remap_node.specs.RemapTable.{output_of_pair, pairs_after_read_data, pairs_after_request, pairs_after_response, renamed};

use crate::pair::IdPair;
use axi_beats::{Addr, BBeat, RBeat};
use flight::Flight;
use node_core::{HasId, passed, set_put, set_take};

/// The ends of a move: the numbers of the link from which a head is taken, and of that on which it is put.
#[derive(Clone, Copy)]
pub(crate) struct Ends {
    pub(crate) from: u32,
    pub(crate) to: u32,
}

/// Takes the head from the one link and puts it on the other one under this ID, where there are both.
#[tactic(auto, using(crate::proofs::CodeLemmas::taken_as, crate::proofs::CodeLemmas::put_as))]
pub(crate) fn pass_as<T: HasId>(
    take: &mut Option<u32>,
    put: &mut Option<(u32, T)>,
    ends: Ends,
    id: Option<u32>,
    head: Option<&T>,
)
    ensures take { take.new ≡ take_of ends.from (is_some (renamed id (option_copied head.entry))) }
    ensures put { put.new ≡ put_of ends.to (option_map (λ m. T.with_id m.id m.beat) (renamed id (option_copied head.entry))) }
{
    let head = passed(id.is_some(), head);
    set_take(take, ends.from, head.is_some());
    set_put(put, ends.to, head);
    put_under(put, id);
}

/// The beat that is put, if any, gets this ID.
fn put_under<T: HasId>(put: &mut Option<(u32, T)>, id: Option<u32>)
    ensures { put.new ≡ option_map (λ p. (p.0, T.with_id (unwrap_or id 0) p.1)) put.old }
{
    if let Some((_, beat)) = put {
        beat.set_id(id.unwrap_or(0));
    }
}

/// AW and AR: the request becomes the newest in flight.
pub(crate) fn note_request(pairs: &mut Flight<IdPair>, id: Option<u32>, head: Option<&Addr>)
    requires { IsTrue (is_some id) → length pairs.old < 16 }
    ensures { pairs.new ≡ pairs_after_request (renamed id (option_copied head.entry)) pairs.old }
{
    let Some(output) = id else {
        return;
    };
    let Some(request) = head else {
        return;
    };
    pairs.push(IdPair {
        input: request.id,
        output,
    });
}

/// B: the oldest write with its ID below leaves.
pub(crate) fn note_response(pairs: &mut Flight<IdPair>, id: Option<u32>, head: Option<&BBeat>)
    ensures { pairs.new ≡ pairs_after_response (renamed id (option_copied head.entry)) pairs.old }
{
    if id.is_none() {
        return;
    }
    let Some(beat) = head else {
        return;
    };
    drop_oldest(pairs, beat.id);
}

/// R: with the last beat the oldest read with its ID below leaves.
pub(crate) fn note_read_data(pairs: &mut Flight<IdPair>, id: Option<u32>, head: Option<&RBeat>)
    ensures { pairs.new ≡ pairs_after_read_data (renamed id (option_copied head.entry)) pairs.old }
{
    if id.is_none() {
        return;
    }
    let Some(beat) = head else {
        return;
    };
    if beat.last {
        drop_oldest(pairs, beat.id);
    }
}

/// The oldest request with this ID below leaves.
fn drop_oldest(pairs: &mut Flight<IdPair>, output: u32)
    ensures { pairs.new ≡ without_oldest output_of_pair output pairs.old }
{
    if let Some(place) = pairs.oldest(output) {
        pairs.take(place);
    }
}
