//! The numbers that words spell. Each call answers `None` where the word is spelled otherwise, and
//! where the number isn't below the limit.

ghost use Rattle.std.specs.Prelude.{◌≡◌, ◌<◌, ◌≤◌, ◌+◌, ◌*◌, [], ◌∷◌, IfSome};
ghost use Rattle.std.specs.Char.{digit_value};
ghost use Rattle.std.specs.Option.{SomeIff};
ghost use Rattle.plain_text.specs.Numbers.{number_in, read_byte_pair, read_decimal, read_hexadecimal, read_plain_decimal};

/// The number that the digits spell in the base, where each byte is a digit of the base in either
/// case and the number is below the limit. No digit spells no number.
pub fn number_in(digits: &[u8], base: u32, limit: u64) -> Option<u64>
    requires low { 2 ≤ base }
    requires high { base ≤ 36 }
    ensures number { result ≡ number_in digits.now base limit }
    ensures below { IfSome result (λ n. n < limit) }
{
    if digits.is_empty() {
        return None;
    }
    let mut value: u64 = 0;
    for byte in digits {
        let digit = (*byte as char).to_digit(base)?;
        value = with_digit(value, digit, base, limit)?;
    }
    Some(value)
}

// The number with one digit more at its end, where it is below the limit.
fn with_digit(value: u64, digit: u32, base: u32, limit: u64) -> Option<u64>
    ensures { SomeIff result (value * base + digit < limit) (value * base + digit) }
{
    let next = value
        .checked_mul(u64::from(base))?
        .checked_add(u64::from(digit))?;
    (next < limit).then_some(next)
}

/// The number below the limit that 1 to 10 decimal digits spell. Zeros may stand at the front.
#[tactic(auto, unfolding(crate::specs::Numbers::read_decimal))]
pub fn read_decimal(word: &[u8], limit: u64) -> Option<u64>
    ensures number { result ≡ read_decimal word.now limit }
    ensures below { IfSome result (λ n. n < limit) }
{
    if word.len() <= 10 {
        number_in(word, 10, limit)
    } else {
        None
    }
}

/// The number below the limit that decimal digits without needless zeros at the front spell.
#[tactic(auto, unfolding(crate::specs::Numbers::read_plain_decimal))]
pub fn read_plain_decimal(word: &[u8], limit: u64) -> Option<u64>
    ensures number { result ≡ read_plain_decimal word.now limit }
    ensures below { IfSome result (λ n. n < limit) }
{
    if word.len() < 2 || word[0] != b'0' {
        number_in(word, 10, limit)
    } else {
        None
    }
}

/// The number below the limit that `0x` and 1 to 16 hexadecimal digits in either case spell.
#[tactic(auto, unfolding(crate::specs::Numbers::read_hexadecimal))]
pub fn read_hexadecimal(word: &[u8], limit: u64) -> Option<u64>
    ensures number { result ≡ read_hexadecimal word.now limit }
    ensures below { IfSome result (λ n. n < limit) }
{
    if word.len() <= 18 && word.starts_with(b"0x") {
        number_in(&word[2..], 16, limit)
    } else {
        None
    }
}

/// The byte that exactly two hexadecimal digits in either case spell, the upper digit first.
pub fn read_byte_pair(pair: &[u8]) -> Option<u8>
    ensures { result ≡ read_byte_pair pair.now }
{
    match pair {
        [high, low] => byte_of_pair(*high, *low),
        _ => None,
    }
}

// The byte that two hexadecimal digits spell.
fn byte_of_pair(high: u8, low: u8) -> Option<u8>
    ensures { result ≡ number_in (high ∷ low ∷ []) 16 256 }
{
    let upper = hexadecimal_digit(high)?;
    let lower = hexadecimal_digit(low)?;
    Some(16 * upper + lower)
}

// The value of a hexadecimal digit in either case.
fn hexadecimal_digit(byte: u8) -> Option<u8>
    ensures value { SomeIff result (digit_value byte < 16) (digit_value byte) }
    ensures small { IfSome result (λ value. value < 16) }
{
    match byte {
        b'0'..=b'9' => Some(byte - b'0'),
        b'a'..=b'f' => Some(byte - b'a' + 10),
        b'A'..=b'F' => Some(byte - b'A' + 10),
        _ => None,
    }
}
