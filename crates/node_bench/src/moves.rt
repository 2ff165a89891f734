//! The moves of one side on all links.

ghost use Rattle.std.specs.Prelude.{◌≡◌, ℕ, List, IsTrue, is_some};
ghost use Rattle.axi_link.specs.LinkWords.{has_room, head_of};
ghost use Rattle.axi_link.specs.Moves.{CanAdvance, CanMove};

use crate::fault::BenchFault;
use axi_link::{Link, Out};

/// Makes the moves of one side on each link, of which every take has its head and every put its room.
pub(crate) fn move_beats(links: &mut [Link], moves: &Out) -> Result<(), BenchFault> {
    for (number, link) in links.iter_mut().enumerate() {
        let Ok(number) = u32::try_from(number) else {
            return Err(BenchFault::TooManyLinks);
        };
        if !can_move(link, number, moves) {
            return Err(BenchFault::CannotMove(number));
        }
        link.commit(number, moves, moves);
    }
    Ok(())
}

/// Whether each take from a link has its head there, and each put its room.
fn can_move(link: &Link, number: u32, moves: &Out) -> bool
    ensures { IsTrue result → CanMove number link.now moves.now moves.now }
{
    can_advance(
        link.head_aw().is_some(),
        link.room_aw(),
        number,
        &moves.aw_take,
        &moves.aw_put,
    ) && can_advance(
        link.head_w().is_some(),
        link.room_w(),
        number,
        &moves.w_take,
        &moves.w_put,
    ) && can_advance(
        link.head_b().is_some(),
        link.room_b(),
        number,
        &moves.b_take,
        &moves.b_put,
    ) && can_advance(
        link.head_ar().is_some(),
        link.room_ar(),
        number,
        &moves.ar_take,
        &moves.ar_put,
    ) && can_advance(
        link.head_r().is_some(),
        link.room_r(),
        number,
        &moves.r_take,
        &moves.r_put,
    )
}

/// The same of one channel.
fn can_advance<T: Copy>(
    head: bool,
    room: bool,
    number: u32,
    take: &Option<u32>,
    put: &Option<(u32, T)>,
) -> bool
    ensures { IsTrue result → (depth : ℕ) (xs : List T) → head ≡ is_some (head_of xs) →
        room ≡ has_room depth xs → CanAdvance number depth xs take.now put.now }
{
    let puts = put.as_ref().map(|(link, _)| *link);
    (head || *take != Some(number)) && (room || puts != Some(number))
}
