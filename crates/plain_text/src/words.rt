//! The words of a line, taken from its front one by one.

ghost use Rattle.std.specs.Prelude.{◌≡◌, ◌<◌, ◌∷◌, false, length, not, option_map, slice_index};
ghost use Rattle.std.specs.List.{position};
ghost use Rattle.std.specs.Str.{bytes_eq};
ghost use Rattle.plain_text.specs.Words.{has_no_word, is_blank, next_word, words};

/// The first word and the text behind it, or `None` where no word is left.
///
/// Words are parted by one or more spaces or tabs. Blanks before the first word and after the last
/// part nothing.
pub fn next_word(text: &[u8]) -> Option<(&[u8], &[u8])>
    ensures { option_map (λ found. (found.0.now, words found.1.now)) result ≡ next_word (words text.now) }
{
    match first_filled(text) {
        Some(start) => Some(first_word(&text[start..])),
        None => None,
    }
}

/// Whether no word is left: nothing stands in the text but spaces and tabs.
pub fn has_no_word(text: &[u8]) -> bool
    ensures { result ≡ has_no_word (words text.now) }
{
    next_word(text).is_none()
}

/// Whether the word is exactly this text, as in `is_word(word, b"read")`.
pub fn is_word(word: &[u8], text: &[u8]) -> bool
    ensures { result ≡ bytes_eq word.now text.now }
{
    word == text
}

// Whether the byte is a space or a tab.
fn is_blank(byte: u8) -> bool
    ensures { result ≡ is_blank byte }
{
    byte == b' ' || byte == b'\t'
}

// The word at the front of a text that doesn't begin with a blank, and the text behind the word.
fn first_word(text: &[u8]) -> (&[u8], &[u8])
    requires some { 0 < length text.now }
    requires filled { is_blank (slice_index text.now 0) ≡ false }
    ensures { words text.now ≡ result.0.now ∷ words result.1.now }
{
    match first_blank(text) {
        Some(end) => (&text[..end], &text[end..]),
        None => (text, &text[text.len()..]),
    }
}

// The place of the first byte that isn't a blank, if there is one.
fn first_filled(text: &[u8]) -> Option<usize>
    ensures { result ≡ position (λ byte. not (is_blank byte)) text.now }
{
    text.iter().position(|byte| !is_blank(*byte))
}

// The place of the first blank, if there is one.
fn first_blank(text: &[u8]) -> Option<usize>
    ensures { result ≡ position is_blank text.now }
{
    text.iter().position(|byte| is_blank(*byte))
}
