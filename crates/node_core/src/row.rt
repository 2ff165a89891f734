//! How the row of a table is done. The table of a kind of node tells, channel by channel, what the node
//! does in a round: here are a node's link by its number, and the ways to set a channel of an
//! [`Out`](axi_link::Out) in place.

ghost use Rattle.std.specs.Prelude.{◌≡◌, ◌<◌, IfSome, IsSome, length};
ghost use Rattle.std.specs.Option.{option_copied};
ghost use Rattle.axi_link.specs.LinkWords.{link_of};
ghost use Rattle.node_core.specs.Rows.{beat_where, put_of, take_of};

use crate::beat::Beat;
use axi_link::Link;

/// The link of a number, which is below the number of links.
pub fn link_at(links: &[Link], number: u32) -> &Link
    requires { number < length links.now }
    ensures { result.now ≡ link_of links.now number }
{
    &links[number as usize]
}

/// The head that a row passes on: there where its condition holds.
pub fn passed<T: Copy>(condition: bool, head: Option<&T>) -> Option<&T>
    ensures { option_copied result ≡ beat_where condition (option_copied head.entry) }
{
    if condition { head } else { None }
}

/// Sets a take of a node's `Out` in place: of link `number` where `taken`, else of none.
pub fn set_take(take: &mut Option<u32>, number: u32, taken: bool)
    ensures { take.new ≡ take_of number taken }
{
    *take = if taken { Some(number) } else { None };
}

/// Sets a put of a node's `Out` in place: the beat on link `number` where there is one, else none. The
/// beat is written into the one that stands there from an earlier round.
pub fn set_put<T: Beat>(put: &mut Option<(u32, T)>, number: u32, beat: Option<&T>)
    ensures { put.new ≡ put_of number (option_copied beat.entry) }
{
    match beat {
        Some(beat) => {
            open_put(put, number);
            if let Some((_, standing)) = put {
                standing.assign(beat);
            }
        }
        // Writing a None over a beat costs as much as writing the beat.
        None => {
            if put.is_some() {
                *put = None;
            }
        }
    }
}

/// Makes a put of a node's `Out` one on link `number`, whose beat is still to be written: the one that
/// stands there, or one of zeros.
pub fn open_put<T: Beat>(put: &mut Option<(u32, T)>, number: u32)
    ensures some { IsSome put.new }
    ensures link { IfSome put.new (λ standing. standing.0 ≡ number) }
{
    if let Some((link, _)) = put {
        *link = number;
    } else {
        *put = Some((number, T::default()));
    }
}
