//! Numbers in base 16 in the one spelling in which they are written: in lower case and with no
//! needless zero. And the laws that numbers are read as they are written.

ghost use Rattle.std.specs.Prelude.{◌≡◌, ◌<◌, ◌≤◌, ◌+◌, ◌*◌, IfSome};
ghost use Rattle.std.specs.Option.{SomeIff};
ghost use Rattle.plain_text.specs.ExactLaws.{DecimalsAreExact, HexadecimalsAreExact, PairsAreExact};
ghost use Rattle.plain_text.specs.Spelling.{read_glyph, read_pair, read_plain_hexadecimal};
ghost use Rattle.plain_text.specs.Numbers.{number_in};
ghost use Rattle.std.specs.List.{list_all};
ghost use Rattle.plain_text.specs.Spelling.{is_lower};

use crate::numbers::number_in;

/// The number of at most `most` that hexadecimal digits in lower case without needless zeros at the
/// front spell.
///
/// The greatest number is given, not the limit above it, so that every `u128` can be asked for.
#[tactic(auto, unfolding(crate::specs::Spelling::read_plain_hexadecimal))]
pub fn read_plain_hexadecimal(word: &[u8], most: u128) -> Option<u128>
    ensures number { result ≡ read_plain_hexadecimal word.now (most + 1) }
    ensures within { IfSome result (λ n. n ≤ most) }
{
    if (word.len() < 2 || word[0] != b'0') && is_lower_text(word) {
        hexadecimal_up_to(word, most)
    } else {
        None
    }
}

/// The byte that two hexadecimal digits in lower case spell, the upper digit first.
#[tactic(auto, unfolding(crate::specs::Spelling::read_pair))]
pub fn read_pair(high: u8, low: u8) -> Option<u8>
    ensures { result ≡ read_pair high low }
{
    let high = read_glyph(high)?;
    let low = read_glyph(low)?;
    Some(16 * high + low)
}

// The value of one hexadecimal digit in lower case.
#[tactic(auto, unfolding(crate::specs::Spelling::read_glyph))]
fn read_glyph(byte: u8) -> Option<u8>
    ensures value { result ≡ read_glyph byte }
    ensures small { IfSome result (λ value. value < 16) }
{
    match byte {
        b'0'..=b'9' => Some(byte - b'0'),
        b'a'..=b'f' => Some(byte - b'a' + 10),
        _ => None,
    }
}

// Whether none of the bytes is one of `A` to `Z`.
fn is_lower_text(text: &[u8]) -> bool
    ensures { result ≡ list_all is_lower text.now }
{
    text.iter().all(|byte| is_lower(*byte))
}

// Whether the byte is none of `A` to `Z`.
fn is_lower(byte: u8) -> bool
    ensures { result ≡ is_lower byte }
{
    !(b'A' <= byte && byte <= b'Z')
}

// The number of at most `most` that hexadecimal digits in either case spell: by steps of 64 bits where
// the number fits.
fn hexadecimal_up_to(digits: &[u8], most: u128) -> Option<u128>
    ensures number { result ≡ number_in digits.now 16 (most + 1) }
    ensures within { IfSome result (λ n. n ≤ most) }
{
    if most < u128::from(u64::MAX) {
        let number = number_in(digits, 16, most as u64 + 1)?;
        Some(u128::from(number))
    } else {
        wide_hexadecimal(digits, most)
    }
}

// The same, by steps of 128 bits.
fn wide_hexadecimal(digits: &[u8], most: u128) -> Option<u128>
    ensures number { result ≡ number_in digits.now 16 (most + 1) }
    ensures within { IfSome result (λ n. n ≤ most) }
{
    if digits.is_empty() {
        return None;
    }
    let mut value: u128 = 0;
    for byte in digits {
        let digit = (*byte as char).to_digit(16)?;
        value = with_hexadecimal(value, digit, most)?;
    }
    Some(value)
}

// The number with one hexadecimal digit more behind it, where it is at most `most`.
fn with_hexadecimal(value: u128, digit: u32, most: u128) -> Option<u128>
    ensures { SomeIff result (value * 16 + digit ≤ most) (value * 16 + digit) }
{
    let next = value.checked_mul(16)?.checked_add(u128::from(digit))?;
    (next <= most).then_some(next)
}

/// The law that decimals without needless zeros are read as they are written.
pub fn decimals_are_exact()
    ensures { DecimalsAreExact }
{}

/// The law that hexadecimals in lower case without needless zeros are read as they are written.
pub fn hexadecimals_are_exact()
    ensures { HexadecimalsAreExact }
{}

/// The law that pairs of hexadecimal digits in lower case are read as they are written.
pub fn pairs_are_exact()
    ensures { PairsAreExact }
{}
