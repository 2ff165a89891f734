//! The line `%%`, which parts a text in two.

ghost use Rattle.std.specs.Prelude.{◌≡◌, option_map};
ghost use Rattle.plain_text.specs.Separator.{begins_with_separator, cut, is_separator, lines};
ghost use Rattle.plain_text.specs.SeparatorLaws.{CutsByLines};

use crate::lines::next_line;
use crate::words::is_word;

/// All before the first line that is exactly `%%`, and all after that line and its line feed, or
/// `None` where no line is.
pub fn cut_at_separator(text: &[u8]) -> Option<(&[u8], &[u8])>
    ensures { option_map (λ texts. (texts.0.now, texts.1.now)) result ≡ cut text.now }
{
    let mut rest = text;
    while !rest.is_empty() {
        let (line, after) = next_line(rest);
        if is_separator(line) {
            return Some((&text[..text.len() - rest.len()], after));
        }
        rest = after;
    }
    None
}

/// The two parts that [`cut_at_separator`] answers, of a text in UTF-8.
pub fn cut_text(text: &str) -> Option<(&str, &str)>
    ensures { option_map (λ texts. (texts.0.now, texts.1.now)) result ≡ cut text.now }
{
    let (before, after) = cut_at_separator(text.as_bytes())?;
    Some((&text[..before.len()], &text[text.len() - after.len()..]))
}

/// Whether the first line of the text is exactly `%%`.
pub fn begins_with_separator(text: &[u8]) -> bool
    ensures { result ≡ begins_with_separator (lines text.now) }
{
    !text.is_empty() && is_separator(next_line(text).0)
}

/// Whether the line is exactly `%%`.
pub fn is_separator(line: &[u8]) -> bool
    ensures { result ≡ is_separator line.now }
{
    is_word(line, b"%%")
}

/// The law that ties the cut of a text to its lines: a text is cut exactly where one of its lines
/// is `%%`, and then at the first such line.
pub fn cut_is_by_lines()
    ensures { CutsByLines }
{}
