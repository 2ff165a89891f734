//! The fields of a line, each read and written: numbers, bits, lanes and tags.

ghost use Rattle.std.specs.Prelude.{◌≡◌, ◌+◌, ◌<◌, ◌≤◌, ◌++◌, ◌∷◌, ◌^◌, [], IfSome, length, option_map};
ghost use Rattle.std.specs.Fmt.{decimal};
ghost use Rattle.plain_text.specs.Printing.{hexadecimal};
ghost use Rattle.axi_beats.specs.Bus.{IsBusWidth};
ghost use Rattle.trace_text.specs.Form.{bit_text, lanes_text, tag_text};
ghost use Rattle.trace_text.specs.Reading.{bit_before, bit_in, decimal_before, hexadecimal_before, lanes_in, tag_in};

use axi_beats::{Lanes, Tag};
use plain_text::fields::field_before;
use plain_text::line_buffer::LineBuffer;
use plain_text::numbers::read_plain_decimal;
use plain_text::spelling::{read_pair, read_plain_hexadecimal};
use plain_text::words::is_word;

// A decimal below the limit, and the text behind the byte that ends it.
#[tactic(auto, unfolding(crate::specs::Reading::decimal_before))]
pub(crate) fn decimal_before(text: &[u8], end: u8, limit: u64) -> Option<(u64, &[u8])>
    ensures number { option_map (λ found. (found.0, found.1.now)) result
        ≡ decimal_before end limit text.now }
    ensures below { IfSome result (λ found. found.0 < limit) }
{
    let (word, rest) = field_before(text, end)?;
    Some((read_plain_decimal(word, limit)?, rest))
}

// A decimal, and the byte that ends it.
pub(crate) fn push_decimal_before(line: &mut LineBuffer, number: u64, end: u8)
    requires { length line.old + 21 ≤ LineBuffer.ROOM }
    ensures text { line.new ≡ line.old ++ (decimal number ++ end ∷ []) }
    ensures room { length line.new ≤ length line.old + 21 }
{
    line.push_decimal(number);
    line.push(&[end]);
}

// A hexadecimal of at most `most`, and the text behind the byte that ends it.
#[tactic(auto, unfolding(crate::specs::Reading::hexadecimal_before))]
pub(crate) fn hexadecimal_before(text: &[u8], end: u8, most: u128) -> Option<(u128, &[u8])>
    ensures number { option_map (λ found. (found.0, found.1.now)) result
        ≡ hexadecimal_before end (most + 1) text.now }
    ensures within { IfSome result (λ found. found.0 ≤ most) }
{
    let (word, rest) = field_before(text, end)?;
    Some((read_plain_hexadecimal(word, most)?, rest))
}

// A hexadecimal, and the byte that ends it.
pub(crate) fn push_hexadecimal_before(line: &mut LineBuffer, number: u128, end: u8)
    requires { length line.old + 33 ≤ LineBuffer.ROOM }
    ensures text { line.new ≡ line.old ++ (hexadecimal number ++ end ∷ []) }
    ensures room { length line.new ≤ length line.old + 33 }
{
    line.push_hexadecimal(number);
    line.push(&[end]);
}

// The strobe that has a bit for each lane of the bus.
pub(crate) fn greatest_strobe(bus: u8) -> u128
    requires { IsBusWidth bus }
    ensures { result + 1 ≡ 2 ^ bus }
{
    match bus {
        4 => 0xf,
        8 => 0xff,
        16 => 0xffff,
        32 => 0xffff_ffff,
        64 => 0xffff_ffff_ffff_ffff,
        _ => u128::MAX,
    }
}

// A bit, and the text behind the byte that ends it.
#[tactic(auto, unfolding(crate::specs::Reading::bit_before))]
pub(crate) fn bit_before(text: &[u8], end: u8) -> Option<(bool, &[u8])>
    ensures { option_map (λ found. (found.0, found.1.now)) result ≡ bit_before end text.now }
{
    let (word, rest) = field_before(text, end)?;
    Some((bit_in(word)?, rest))
}

// The bit that `0` or `1` is.
#[tactic(auto, unfolding(crate::specs::Reading::bit_in))]
fn bit_in(word: &[u8]) -> Option<bool>
    ensures { result ≡ bit_in word.now }
{
    if is_word(word, b"0") {
        Some(false)
    } else if is_word(word, b"1") {
        Some(true)
    } else {
        None
    }
}

// A bit, and the byte that ends it.
pub(crate) fn push_bit_before(line: &mut LineBuffer, bit: bool, end: u8)
    requires { length line.old + 2 ≤ LineBuffer.ROOM }
    ensures text { line.new ≡ line.old ++ (bit_text bit ++ end ∷ []) }
    ensures room { length line.new ≡ length line.old + 2 }
{
    if bit {
        line.push(b"1");
    } else {
        line.push(b"0");
    }
    line.push(&[end]);
}

// Takes over the lanes that two digits for each lane of the bus give, from lane 0 on; the lanes above
// it are 0.
pub(crate) fn read_lanes(lanes: &mut Lanes, word: &[u8], bus: u8) -> Option<()>
    requires { IsBusWidth bus }
    ensures { option_map (λ _. lanes.new) result ≡ lanes_in bus word.now }
{
    if word.len() != 2 * usize::from(bus) {
        return None;
    }
    *lanes = Lanes::zero();
    for lane in 0..bus {
        let place = 2 * usize::from(lane);
        let byte = read_pair(word[place], word[place + 1])?;
        lanes.set(lane, byte);
    }
    Some(())
}

// The lanes of the bus from lane 0 on, and the byte that ends them.
pub(crate) fn push_lanes_before(line: &mut LineBuffer, lanes: &Lanes, bus: u8, end: u8)
    requires bus { bus ≤ 128 }
    requires space { length line.old + 257 ≤ LineBuffer.ROOM }
    ensures text { line.new ≡ line.old ++ (lanes_text bus lanes.now ++ end ∷ []) }
    ensures room { length line.new ≤ length line.old + 257 }
{
    for lane in 0..bus {
        line.push_pairs(&[lanes.get(lane)]);
    }
    line.push(&[end]);
}

// The number of the transaction, and the lowest and the highest lane that is wanted.
#[tactic(auto, unfolding(crate::specs::Reading::tag_in))]
pub(crate) fn tag_in(text: &[u8]) -> Option<Tag>
    ensures { result ≡ tag_in text.now }
{
    let (txn, rest) = decimal_before(text, b':', 1 << 32)?;
    let (low, rest) = decimal_before(rest, b':', 128)?;
    let high = read_plain_decimal(rest, 128)?;
    Some(Tag {
        txn: txn as u32,
        low: low as u8,
        high: high as u8,
    })
}

// The number of the transaction, and the lowest and the highest lane that is wanted.
#[tactic(auto, unfolding(crate::specs::Form::tag_text))]
pub(crate) fn push_tag(line: &mut LineBuffer, tag: &Tag)
    requires { length line.old + 62 ≤ LineBuffer.ROOM }
    ensures text { line.new ≡ line.old ++ tag_text tag.now }
    ensures room { length line.new ≤ length line.old + 62 }
{
    push_decimal_before(line, u64::from(tag.txn), b':');
    push_decimal_before(line, u64::from(tag.low), b':');
    line.push_decimal(u64::from(tag.high));
}
