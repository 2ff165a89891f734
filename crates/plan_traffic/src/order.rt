//! What lines ask of the managers, and how much it is.

ghost use Rattle.std.specs.Prelude.{◌≡◌, ◌<◌, option_map};
ghost use Rattle.plain_text.specs.Lines.{lines};
ghost use Rattle.plan_traffic.specs.Orders.{is_too_much, issued, order_said, orders_of};
ghost use Rattle.plan_traffic.specs.Seen.{order_seen};

use crate::line::{TextAccess, TextLine, read_line};
use crate::managers::manager_called;
use plain_text::lines::next_line;
use topology::Wiring;

/// How many transactions a traffic has at most.
pub const MOST_TRANSACTIONS: u64 = 16_384;

/// How many beats a traffic has at most.
pub const MOST_BEATS: u64 = 262_144;

/// What a line asks of the manager at a place among the document's nodes.
#[derive(Debug, Clone, Copy)]
pub(crate) enum TextOrder<'a> {
    /// Its later transactions wait for those before the line.
    Hold(u32),
    /// It issues a transaction.
    Issue(u32, TextAccess<'a>),
}

/// What the line asks, or `None` where it asks nothing, is of none of the forms or names a manager that
/// isn't there.
#[tactic(auto, unfolding(crate::specs::Orders::order_said))]
pub(crate) fn read_order<'a>(line: &'a [u8], nodes: &Wiring) -> Option<TextOrder<'a>>
    ensures { option_map order_seen result ≡ order_said nodes.now line.now }
{
    match read_line(line)? {
        TextLine::Nothing => None,
        TextLine::Wait(name) => {
            let place = manager_called(nodes, name)?;
            Some(TextOrder::Hold(place))
        }
        TextLine::Burst(access) => {
            let place = manager_called(nodes, access.start.manager)?;
            Some(TextOrder::Issue(place, access))
        }
    }
}

/// Whether the lines ask for over 16,384 transactions or over 262,144 beats.
pub(crate) fn is_too_much(text: &[u8], nodes: &Wiring) -> bool
    ensures { result ≡ is_too_much (issued (orders_of nodes.now (lines text.now))) }
{
    let mut bursts: u64 = 0;
    let mut beats: u64 = 0;
    let mut rest = text;
    while !rest.is_empty() {
        let (line, more) = next_line(rest);
        if let Some(TextOrder::Issue(_, access)) = read_order(line, nodes) {
            if bursts == MOST_TRANSACTIONS || access.beats > MOST_BEATS - beats {
                return true;
            }
            bursts += 1;
            beats += access.beats;
        }
        rest = more;
    }
    false
}
