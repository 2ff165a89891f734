//! Fields: the parts of a text that each end at a given byte.

ghost use Rattle.std.specs.Prelude.{◌≡◌, ◌==◌, option_map};
ghost use Rattle.std.specs.List.{position};
ghost use Rattle.plain_text.specs.Fields.{field_before};

/// The bytes before the first byte `end`, and the bytes after it, or `None` where there is no such
/// byte.
pub fn field_before(text: &[u8], end: u8) -> Option<(&[u8], &[u8])>
    ensures { option_map (λ parts. (parts.0.now, parts.1.now)) result ≡ field_before end text.now }
{
    match place_of(text, end) {
        Some(place) => Some((&text[..place], &text[place + 1..])),
        None => None,
    }
}

// The first place of the byte, if it has one.
fn place_of(text: &[u8], wanted: u8) -> Option<usize>
    ensures { result ≡ position (λ byte. byte == wanted) text.now }
{
    text.iter().position(|byte| *byte == wanted)
}
