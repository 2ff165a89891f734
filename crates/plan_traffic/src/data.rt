//! Data words: a pair of characters for each valid lane of a beat, which says the byte or that its
//! strobe isn't set. (Arm IHI 0022, write strobes.)

ghost use Rattle.std.specs.Prelude.{◌≡◌, ◌+◌, ◌≤◌, ◌++◌, if◌then◌else◌, length, true, IfSome, Some, None};
ghost use Rattle.std.specs.List.{list_all};
ghost use Rattle.plain_text.specs.Words.{words};
ghost use Rattle.plan_traffic.specs.Data.{are_pairs, are_data_words, data_bytes, is_data_word, is_pair, pair_byte, word_bytes};

use manager_node::WriteByte;
use plain_text::numbers::read_byte_pair;
use plain_text::words::next_word;

/// The number of data words of the line's rest, where it is nothing but data words: `first` pairs in
/// the first one, and `other` in each other one.
pub(crate) fn count_data_words(line: &[u8], first: u64, other: u64) -> Option<u64>
    requires first { first ≤ 128 }
    requires other { other ≤ 128 }
    ensures { result ≡ (if are_data_words first other (words line.now) then Some (length (words line.now)) else None) }
{
    let (word, rest) = next_word(line)?;
    if is_data_word(word, first) {
        let more = count_words_of(rest, other)?;
        Some(more + 1)
    } else {
        None
    }
}

// The number of words that are left, where each has so many pairs and nothing else.
#[tactic(auto, using(crate::proofs::WordCounts::words_short))]
fn count_words_of(line: &[u8], pairs: u64) -> Option<u64>
    requires { pairs ≤ 128 }
    ensures count { result ≡ (if list_all (is_data_word pairs) (words line.now) then Some (length (words line.now)) else None) }
    ensures short { IfSome result (λ count. count ≤ length line.now + 1) }
{
    let mut count = 0;
    let mut rest = line;
    while let Some((word, more)) = next_word(rest) {
        if !is_data_word(word, pairs) {
            return None;
        }
        count += 1;
        rest = more;
    }
    Some(count)
}

// Whether the word is so many pairs and nothing else.
fn is_data_word(word: &[u8], pairs: u64) -> bool
    requires { pairs ≤ 128 }
    ensures { result ≡ is_data_word pairs word.now }
{
    word.len() as u64 == 2 * pairs && are_pairs(word)
}

// Whether the word is pairs and nothing else.
fn are_pairs(word: &[u8]) -> bool
    ensures { result ≡ are_pairs word.now }
{
    let mut rest = word;
    while let [high, low, more @ ..] = rest {
        if !is_pair(*high, *low) {
            return false;
        }
        rest = more;
    }
    rest.is_empty()
}

// Whether the two characters are `--` or two hexadecimal digits.
#[tactic(auto, unfolding(crate::specs::Data::is_pair))]
fn is_pair(high: u8, low: u8) -> bool
    ensures { result ≡ is_pair high low }
{
    (high == b'-' && low == b'-') || read_byte_pair(&[high, low]).is_some()
}

// What a pair says of its lane, or `None` where the characters are no pair.
#[tactic(auto, unfolding(crate::specs::Data::is_pair, crate::specs::Data::pair_byte))]
fn read_lane(high: u8, low: u8) -> Option<WriteByte>
    ensures pair { IfSome result (λ _. is_pair high low ≡ true) }
    ensures byte { IfSome result (λ byte. byte ≡ pair_byte high low) }
{
    match read_byte_pair(&[high, low]) {
        Some(value) => Some(WriteByte {
            value,
            strobed: true,
        }),
        None if high == b'-' && low == b'-' => Some(WriteByte {
            value: 0,
            strobed: false,
        }),
        None => None,
    }
}

/// Adds what the data words of the line's rest say, in the order of the burst, and answers their number,
/// where the rest is nothing but data words: `first` pairs in the first one, and `other` in each other
/// one. `None` also where memory is wanting.
pub(crate) fn take_data_words(
    bytes: &mut Vec<WriteByte>,
    line: &[u8],
    first: u64,
    other: u64,
) -> Option<u64>
    requires first { first ≤ 128 }
    requires other { other ≤ 128 }
    ensures words { IfSome result (λ _. are_data_words first other (words line.now) ≡ true) }
    ensures count { IfSome result (λ count. count ≡ length (words line.now)) }
    ensures bytes { IfSome result (λ _. bytes.new.items ≡ bytes.old.items ++ data_bytes (words line.now)) }
{
    let (word, rest) = next_word(line)?;
    take_word(bytes, word, first)?;
    let more = take_words(bytes, rest, other)?;
    Some(more + 1)
}

// The same for words that have so many pairs each.
#[tactic(auto, using(crate::proofs::WordCounts::words_short))]
fn take_words(bytes: &mut Vec<WriteByte>, line: &[u8], pairs: u64) -> Option<u64>
    requires { pairs ≤ 128 }
    ensures words { IfSome result (λ _. list_all (is_data_word pairs) (words line.now) ≡ true) }
    ensures count { IfSome result (λ count. count ≡ length (words line.now)) }
    ensures short { IfSome result (λ count. count ≤ length line.now + 1) }
    ensures bytes { IfSome result (λ _. bytes.new.items ≡ bytes.old.items ++ data_bytes (words line.now)) }
{
    let mut count = 0;
    let mut rest = line;
    while let Some((word, more)) = next_word(rest) {
        take_word(bytes, word, pairs)?;
        count += 1;
        rest = more;
    }
    Some(count)
}

// Adds what the pairs of a word say, where it is so many pairs and nothing else.
fn take_word(bytes: &mut Vec<WriteByte>, word: &[u8], pairs: u64) -> Option<()>
    requires { pairs ≤ 128 }
    ensures word { IfSome result (λ _. is_data_word pairs word.now ≡ true) }
    ensures bytes { IfSome result (λ _. bytes.new.items ≡ bytes.old.items ++ word_bytes word.now) }
{
    if word.len() as u64 == 2 * pairs {
        take_pairs(bytes, word)
    } else {
        None
    }
}

// Adds what the pairs of a word say, where it is pairs and nothing else.
fn take_pairs(bytes: &mut Vec<WriteByte>, word: &[u8]) -> Option<()>
    ensures pairs { IfSome result (λ _. are_pairs word.now ≡ true) }
    ensures bytes { IfSome result (λ _. bytes.new.items ≡ bytes.old.items ++ word_bytes word.now) }
{
    let mut rest = word;
    while let [high, low, more @ ..] = rest {
        let byte = read_lane(*high, *low)?;
        if bytes.push(byte).is_err() {
            return None;
        }
        rest = more;
    }
    if rest.is_empty() { Some(()) } else { None }
}
