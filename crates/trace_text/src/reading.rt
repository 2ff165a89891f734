//! A trace line is read as a whole.

ghost use Rattle.std.specs.Prelude.{◌≡◌, IfOk, IfSome, IsErr, IsTrue, None, Some, if◌then◌else◌, option_map};
ghost use Rattle.std.specs.Option.{ok_or};
ghost use Rattle.axi_beats.specs.Bus.{IsBusWidth};
ghost use Rattle.trace_text.specs.Line.{Line};
ghost use Rattle.trace_text.specs.Ranges.{is_port_kind};
ghost use Rattle.trace_text.specs.Reading.{kind_before, trace_round_of, lite_in, round_before};

use crate::channel::{channel_before, read_channel};
use crate::fields::decimal_before;
use axi_beats::is_bus_width;
use axi_history::{PortKind, PortRound};
use plain_text::fields::field_before;
use plain_text::words::is_word;

/// Why a line of a trace is refused.
#[derive(Clone, Copy, Debug, PartialEq, Eq)]
pub enum LineFault {
    /// The text is the trace line of no round.
    BadTraceLine,
}

/// The round whose trace line the text is. The text has no line feed.
///
/// A number that stands in another spelling, as with a zero at the front or a capital digit, is
/// refused, and so is any other blank than the single spaces between the words.
///
/// # Errors
///
/// `BadTraceLine` where the text is the trace line of no round.
pub fn read_trace_line(line: &str) -> Result<PortRound, LineFault>
    // What is read has this text as its trace line.
    ensures found { IfOk result (λ r. Line r line.now) }
    // A round's trace line is read as that round.
    ensures only { (r : PortRound) → Line r line.now → result ≡ Ok r }
    // What is refused is no round's trace line.
    ensures refused { IsErr result → (r : PortRound) → Line r line.now → ⊥ }
    // The answer as one definition.
    ensures exact { result ≡ ok_or (trace_round_of line.now) LineFault.BadTraceLine }
{
    let mut round = PortRound::default();
    if read_round(&mut round, line) {
        Ok(round)
    } else {
        Err(LineFault::BadTraceLine)
    }
}

/// Takes over the round whose trace line the text is, and answers whether there is one. Where there
/// is none, anything may be left in the round that is lent.
///
/// A reader of many lines lends one round to all of them, and saves moving each.
pub fn read_round(r: &mut PortRound, line: &str) -> bool
    // What is read has this text as its trace line.
    ensures found { IsTrue result → Line r.new line.now }
    // The answer as one definition.
    ensures exact { trace_round_of line.now ≡ (if result then Some r.new else None) }
{
    read_words(r, line.as_bytes()).is_some()
}

// Takes over the round whose trace line the text is, if there is one.
#[tactic(auto, unfolding(crate::specs::Reading::trace_round_of))]
fn read_words(r: &mut PortRound, text: &[u8]) -> Option<()>
    ensures { option_map (λ _. r.new) result ≡ trace_round_of text.now }
{
    let (round, rest) = round_before(text)?;
    let (link, rest) = decimal_before(rest, b' ', 4096)?;
    let (kind, rest) = kind_before(rest)?;
    r.round = round;
    r.link = link as u32;
    r.kind = kind;
    let rest = channel_before(&mut r.aw, rest, kind.bus)?;
    let rest = channel_before(&mut r.w, rest, kind.bus)?;
    let rest = channel_before(&mut r.b, rest, kind.bus)?;
    let rest = channel_before(&mut r.ar, rest, kind.bus)?;
    read_channel(&mut r.r, rest, kind.bus)
}

// A round from 1 on.
#[tactic(auto, unfolding(crate::specs::Reading::round_before))]
fn round_before(text: &[u8]) -> Option<(u64, &[u8])>
    ensures { option_map (λ found. (found.0, found.1.now)) result ≡ round_before text.now }
{
    let (round, rest) = decimal_before(text, b' ', 1 << 63)?;
    if round == 0 {
        return None;
    }
    Some((round, rest))
}

// The kind and the bus of a port.
#[tactic(auto, unfolding(crate::specs::Reading::kind_before))]
fn kind_before(text: &[u8]) -> Option<(PortKind, &[u8])>
    ensures kind { option_map (λ found. (found.0, found.1.now)) result ≡ kind_before text.now }
    ensures bus { IfSome result (λ found. IsBusWidth found.0.bus) }
{
    let (word, rest) = field_before(text, b' ')?;
    let lite = lite_in(word)?;
    let (bus, rest) = decimal_before(rest, b' ', 129)?;
    let kind = PortKind {
        lite,
        bus: bus as u8,
    };
    if is_port_kind(kind) {
        Some((kind, rest))
    } else {
        None
    }
}

// Whether the port is one of AXI4-Lite: `axi` or `lite`.
#[tactic(auto, unfolding(crate::specs::Reading::lite_in))]
fn lite_in(word: &[u8]) -> Option<bool>
    ensures { result ≡ lite_in word.now }
{
    if is_word(word, b"axi") {
        Some(false)
    } else if is_word(word, b"lite") {
        Some(true)
    } else {
        None
    }
}

// Whether the bus has a width that a bus can have, which on AXI4-Lite is 4 or 8 bytes.
fn is_port_kind(kind: PortKind) -> bool
    ensures { result ≡ is_port_kind kind }
{
    is_bus_width(kind.bus) && (!kind.lite || kind.bus <= 8)
}
