//! What a line of traffic says, read where it lies in the text, so that reading takes no memory.

ghost use Rattle.std.specs.Prelude.{◌≡◌, ◌<◌, ◌≤◌, ◌^◌, ◌-◌, ◌%◌, option_and_then, option_map, IfSome};
ghost use Rattle.plain_text.specs.Words.{words};
ghost use Rattle.plan_traffic.specs.Line.{beats_named, burst_named, first_pairs, form_said, is_passed, line_said, other_pairs, read_said, size_named, start_of, wait_said, write_said};
ghost use Rattle.plan_traffic.specs.Seen.{form_seen, line_seen, start_seen, HasBeatSize};

use crate::data::count_data_words;
use axi_beats::Burst;
use plain_text::numbers::{read_decimal, read_hexadecimal};
use plain_text::words::{has_no_word, is_word, next_word};

/// Who asks, under which ID, and how the burst starts.
#[derive(Debug, Clone, Copy)]
pub(crate) struct TextStart<'a> {
    pub manager: &'a [u8],
    pub id: u32,
    pub addr: u64,
    /// The bytes per beat, as a power of two of at most 7.
    pub size: u8,
    pub burst: Burst,
}

/// A burst that is asked for. A write's data words are the rest of its line.
#[derive(Debug, Clone, Copy)]
pub(crate) struct TextAccess<'a> {
    pub start: TextStart<'a>,
    pub write: bool,
    pub beats: u64,
    pub data: &'a [u8],
}

/// What a line of traffic says, where its data words aren't read yet.
#[derive(Debug, Clone, Copy)]
pub(crate) enum TextForm<'a> {
    /// Nothing, as below.
    Nothing,
    /// This manager waits, as below.
    Wait(&'a [u8]),
    /// A manager reads so many beats.
    Read(TextStart<'a>, u64),
    /// A manager writes the data words that are the rest of the line.
    Write(TextStart<'a>, &'a [u8]),
}

/// What a line of traffic says.
#[derive(Debug, Clone, Copy)]
pub(crate) enum TextLine<'a> {
    /// Nothing: it has no word, or its first word begins with `#`.
    Nothing,
    /// Later transactions of this manager are issued only when all before this line are answered.
    Wait(&'a [u8]),
    /// A manager issues a transaction.
    Burst(TextAccess<'a>),
}

/// What the line says, or `None` where it is of none of the forms.
#[tactic(auto, unfolding(crate::specs::Line::said_by))]
pub(crate) fn read_line(line: &[u8]) -> Option<TextLine<'_>>
    ensures { option_map line_seen result ≡ line_said line.now }
{
    match read_form(line)? {
        TextForm::Nothing => Some(TextLine::Nothing),
        TextForm::Wait(manager) => Some(TextLine::Wait(manager)),
        TextForm::Read(start, beats) => Some(TextLine::Burst(TextAccess {
            start,
            write: false,
            beats,
            data: line,
        })),
        TextForm::Write(start, data) => {
            let beats = count_data_words(data, first_pairs(&start), other_pairs(&start))?;
            Some(TextLine::Burst(TextAccess {
                start,
                write: true,
                beats,
                data,
            }))
        }
    }
}

/// The form of a line, or `None` where it has none. Data words are still to be read.
#[tactic(auto, unfolding(crate::specs::Line::said_by))]
pub(crate) fn read_form(line: &[u8]) -> Option<TextForm<'_>>
    ensures said { option_and_then form_seen result ≡ line_said line.now }
    ensures size { IfSome result HasBeatSize }
{
    if is_passed(line) {
        Some(TextForm::Nothing)
    } else {
        parse_form(line)
    }
}

// Whether the line has no word, or its first word begins with `#`.
fn is_passed(line: &[u8]) -> bool
    ensures { result ≡ is_passed (words line.now) }
{
    match next_word(line) {
        Some((word, _)) => word.starts_with(b"#"),
        None => true,
    }
}

// What a line says that isn't passed over.
#[tactic(auto, unfolding(crate::specs::Line::form_said))]
fn parse_form(line: &[u8]) -> Option<TextForm<'_>>
    ensures said { option_and_then form_seen result ≡ form_said (words line.now) }
    ensures size { IfSome result HasBeatSize }
{
    let (verb, line) = next_word(line)?;
    if is_word(verb, b"write") {
        parse_write(line)
    } else if is_word(verb, b"read") {
        parse_read(line)
    } else if is_word(verb, b"wait") {
        parse_wait(line)
    } else {
        None
    }
}

// The words after `write`.
#[tactic(auto, unfolding(crate::specs::Line::write_said))]
fn parse_write(line: &[u8]) -> Option<TextForm<'_>>
    ensures said { option_and_then form_seen result ≡ write_said (words line.now) }
    ensures size { IfSome result HasBeatSize }
{
    let (start, data) = parse_start(line)?;
    Some(TextForm::Write(start, data))
}

// The words after `read`.
#[tactic(auto, unfolding(crate::specs::Line::read_said))]
fn parse_read(line: &[u8]) -> Option<TextForm<'_>>
    ensures said { option_and_then form_seen result ≡ read_said (words line.now) }
    ensures size { IfSome result HasBeatSize }
{
    let (start, line) = parse_start(line)?;
    let (word, line) = next_word(line)?;
    let beats = parse_beats(word)?;
    if has_no_word(line) {
        Some(TextForm::Read(start, beats))
    } else {
        None
    }
}

// The words after `wait`.
#[tactic(auto, unfolding(crate::specs::Line::wait_said))]
fn parse_wait(line: &[u8]) -> Option<TextForm<'_>>
    ensures said { option_and_then form_seen result ≡ wait_said (words line.now) }
    ensures size { IfSome result HasBeatSize }
{
    let (manager, line) = next_word(line)?;
    if has_no_word(line) {
        Some(TextForm::Wait(manager))
    } else {
        None
    }
}

// The five words that a write and a read have in common (manager, ID, address, bytes per beat and kind
// of burst), and the words behind them.
#[tactic(auto, unfolding(crate::specs::Line::start_of))]
fn parse_start(line: &[u8]) -> Option<(TextStart<'_>, &[u8])>
    ensures said { option_map (λ found. (start_seen found.0, words found.1.now)) result ≡ start_of (words line.now) }
    ensures size { IfSome result (λ found. found.0.size ≤ 7) }
{
    let (manager, line) = next_word(line)?;
    let (word, line) = next_word(line)?;
    let id = read_decimal(word, 1 << 32)?;
    let (word, line) = next_word(line)?;
    let addr = read_hexadecimal(word, 1 << 63)?;
    let (word, line) = next_word(line)?;
    let size = parse_size(word)?;
    let (word, line) = next_word(line)?;
    let burst = parse_burst(word)?;
    let start = TextStart {
        manager,
        id: id as u32,
        addr,
        size,
        burst,
    };
    Some((start, line))
}

// The bytes per beat, as a power of two.
#[tactic(auto, unfolding(crate::specs::Line::size_named))]
fn parse_size(word: &[u8]) -> Option<u8>
    ensures said { result ≡ size_named word.now }
    ensures small { IfSome result (λ size. size ≤ 7) }
{
    if is_word(word, b"1") {
        Some(0)
    } else if is_word(word, b"2") {
        Some(1)
    } else if is_word(word, b"4") {
        Some(2)
    } else if is_word(word, b"8") {
        Some(3)
    } else if is_word(word, b"16") {
        Some(4)
    } else if is_word(word, b"32") {
        Some(5)
    } else if is_word(word, b"64") {
        Some(6)
    } else if is_word(word, b"128") {
        Some(7)
    } else {
        None
    }
}

// The kind of burst.
#[tactic(auto, unfolding(crate::specs::Line::burst_named))]
fn parse_burst(word: &[u8]) -> Option<Burst>
    ensures { result ≡ burst_named word.now }
{
    if is_word(word, b"fixed") {
        Some(Burst::Fixed)
    } else if is_word(word, b"incr") {
        Some(Burst::Incr)
    } else if is_word(word, b"wrap") {
        Some(Burst::Wrap)
    } else {
        None
    }
}

// A number of beats, which is at least one.
#[tactic(auto, unfolding(crate::specs::Line::beats_named))]
fn parse_beats(word: &[u8]) -> Option<u64>
    ensures { result ≡ beats_named word.now }
{
    let count = read_decimal(word, 1 << 32)?;
    if count == 0 { None } else { Some(count) }
}

/// The number of valid lanes of the first beat: from the address to the end of its aligned block. (Arm
/// IHI 0022, burst address structure.)
pub(crate) fn first_pairs(start: &TextStart<'_>) -> u64
    requires { start.now.size ≤ 7 }
    ensures value { result ≡ first_pairs (start_seen start.now) }
    ensures small { result ≤ 128 }
{
    beat_bytes(start.size) - start.addr % beat_bytes(start.size)
}

/// The number of valid lanes of each other beat. Each beat of a FIXED burst has those of the first one.
pub(crate) fn other_pairs(start: &TextStart<'_>) -> u64
    requires { start.now.size ≤ 7 }
    ensures value { result ≡ other_pairs (start_seen start.now) }
    ensures small { result ≤ 128 }
{
    match start.burst {
        Burst::Fixed => first_pairs(start),
        Burst::Incr | Burst::Wrap => beat_bytes(start.size),
    }
}

// The number of bytes per beat.
fn beat_bytes(size: u8) -> u64
    requires { size ≤ 7 }
    ensures value { result ≡ 2 ^ size }
    ensures some { 0 < result }
    ensures small { result ≤ 128 }
{
    1 << size
}
