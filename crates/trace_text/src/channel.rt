//! What a channel offers: nothing, or a beat behind its mark.

ghost use Rattle.std.specs.Prelude.{◌≡◌, ◌+◌, ◌≤◌, ◌++◌, ◌∷◌, [], None, Some, length, option_map};
ghost use Rattle.axi_beats.specs.Bus.{IsBusWidth};
ghost use Rattle.trace_text.specs.Form.{channel_text, mark};
ghost use Rattle.trace_text.specs.Reading.{channel_before, channel_in, mark_before};

use crate::trace_beat::TraceBeat;
use axi_history::Seen;
use plain_text::fields::field_before;
use plain_text::line_buffer::LineBuffer;
use plain_text::words::is_word;

// Takes over what a channel offers by the word before the first space, and answers the text behind
// that space.
#[tactic(auto, unfolding(crate::specs::Reading::channel_before))]
pub(crate) fn channel_before<'a, B: TraceBeat>(
    offered: &mut Option<Seen<B>>,
    text: &'a [u8],
    bus: u8,
) -> Option<&'a [u8]>
    requires { IsBusWidth bus }
    ensures { option_map (λ rest. (offered.new, rest.now)) result ≡ channel_before (B.read_of bus) text.now }
{
    let (word, rest) = field_before(text, b' ')?;
    read_channel(offered, word, bus)?;
    Some(rest)
}

// Takes over what a channel of a port with a bus of so many bytes offers: nothing, which is `-`, or a
// beat behind its mark.
pub(crate) fn read_channel<B: TraceBeat>(
    offered: &mut Option<Seen<B>>,
    word: &[u8],
    bus: u8,
) -> Option<()>
    requires { IsBusWidth bus }
    ensures { option_map (λ _. offered.new) result ≡ channel_in (B.read_of bus) word.now }
{
    if is_word(word, b"-") {
        offer_nothing(offered);
        return Some(());
    }
    let (taken, fields) = mark_before(word)?;
    read_seen(offered, taken, fields, bus)
}

// Takes away the beat that was offered, if one was: writing None costs as much as writing a beat.
fn offer_nothing<B: TraceBeat>(offered: &mut Option<Seen<B>>)
    ensures { offered.new ≡ None }
{
    if offered.is_some() {
        *offered = None;
    }
}

// Takes over the beat that is offered, in the place of the one before, if there is one.
fn read_seen<B: TraceBeat>(
    offered: &mut Option<Seen<B>>,
    taken: bool,
    fields: &[u8],
    bus: u8,
) -> Option<()>
    requires { IsBusWidth bus }
    ensures { option_map (λ _. offered.new) result
        ≡ option_map (λ (beat : B). Some (record { beat = beat; taken = taken })) (B.read_of bus fields.now) }
{
    match offered {
        Some(seen) => {
            seen.taken = taken;
            seen.beat.read(fields, bus)
        }
        None => {
            let mut beat = B::default();
            beat.read(fields, bus)?;
            *offered = Some(Seen { beat, taken });
            Some(())
        }
    }
}

// Writes what a channel offers: `-` for nothing, else the beat behind its mark.
pub(crate) fn push_channel<B: TraceBeat>(line: &mut LineBuffer, offered: &Option<Seen<B>>, bus: u8)
    requires bus { bus ≤ 128 }
    requires space { length line.old + 512 ≤ LineBuffer.ROOM }
    ensures text { line.new ≡ line.old ++ channel_text (B.text_of bus) offered.now }
    ensures room { length line.new ≤ length line.old + 512 }
{
    match offered {
        None => line.push(b"-"),
        Some(seen) => {
            push_mark(line, seen.taken);
            seen.beat.push(line, bus);
        }
    }
}

// Whether the beat behind the mark is taken, and the beat's fields.
fn mark_before(word: &[u8]) -> Option<(bool, &[u8])>
    ensures { option_map (λ mark. (mark.0, mark.1.now)) result ≡ mark_before word.now }
{
    match word {
        [b'+', fields @ ..] => Some((true, fields)),
        [b'=', fields @ ..] => Some((false, fields)),
        _ => None,
    }
}

// `+` for a beat that is taken, `=` for one that isn't.
fn push_mark(line: &mut LineBuffer, taken: bool)
    requires { length line.old + 1 ≤ LineBuffer.ROOM }
    ensures text { line.new ≡ line.old ++ mark taken ∷ [] }
    ensures room { length line.new ≡ length line.old + 1 }
{
    if taken {
        line.push(b"+");
    } else {
        line.push(b"=");
    }
}
