//! The lines of a text, taken from its front one by one.

ghost use Rattle.std.specs.Prelude.{◌≡◌, ◌<◌, ◌∷◌, length};
ghost use Rattle.std.specs.List.{position};
ghost use Rattle.plain_text.specs.Lines.{after_first_line, is_feed, lines, strip_carriage_return};

use memchr::memchr;

/// The first line of a text that isn't empty, and all that follows its line feed.
///
/// A line ends at a line feed or at the end of the text. One carriage return before the line feed
/// isn't part of the line, and a text that ends in a line feed has no further line after it.
pub fn next_line(text: &[u8]) -> (&[u8], &[u8])
    requires { 0 < length text.now }
    ensures lines { lines text.now ≡ result.0.now ∷ lines result.1.now }
    ensures rest { result.1.now ≡ after_first_line text.now }
    ensures shorter { length result.1.now < length text.now }
{
    match first_feed(text) {
        Some(end) => (without_carriage_return(&text[..end]), &text[end + 1..]),
        None => (text, &text[text.len()..]),
    }
}

// The place of the first line feed, if there is one.
fn first_feed(text: &[u8]) -> Option<usize>
    ensures { result ≡ position is_feed text.now }
{
    memchr(b'\n', text)
}

// The bytes without the one carriage return at their end, if they have one.
fn without_carriage_return(bytes: &[u8]) -> &[u8]
    ensures { result.now ≡ strip_carriage_return bytes.now }
{
    match bytes {
        [front @ .., b'\r'] => front,
        _ => bytes,
    }
}
