//! A trace line is written as a whole.

ghost use Rattle.std.specs.Prelude.{◌≡◌, ℕ, ◌+◌, ◌≤◌, List, ◌++◌, ◌∷◌, [], codes, length};
ghost use Rattle.std.specs.Fmt.{decimal};
ghost use Rattle.trace_text.specs.Form.{channels_text, kind_text, line_text};
ghost use Rattle.trace_text.specs.Line.{Line};
ghost use Rattle.trace_text.specs.Ranges.{IsTraceRound};

use crate::channel::push_channel;
use crate::fields::push_decimal_before;
use axi_history::{PortKind, PortRound};
use plain_text::line_buffer::LineBuffer;

/// Replaces the bytes of the buffer by the trace line of the round and a line feed. Takes no memory.
///
/// The bus has at most 128 bytes. Where another field is out of its range, a line is written all the
/// same, but the round isn't read back from it.
pub fn render_round(line: &mut LineBuffer, r: &PortRound)
    requires { r.now.kind.bus ≤ 128 }
    ensures text { line.new ≡ line_text r.now ++ codes "\n" }
    // Within the ranges this is the trace line of the round.
    ensures line { IsTraceRound r.now
        → (text : List ℕ) × Line r.now text × (line.new ≡ text ++ codes "\n") }
{
    line.clear();
    push_place(line, r.round, r.link);
    push_kind(line, r.kind);
    push_channels(line, r);
    line.push(b"\n");
}

// The round and the link, each before a space.
fn push_place(line: &mut LineBuffer, round: u64, link: u32)
    requires { length line.old + 42 ≤ LineBuffer.ROOM }
    ensures text { line.new ≡ line.old ++ (decimal round ++ 32 ∷ (decimal link ++ 32 ∷ [])) }
    ensures room { length line.new ≤ length line.old + 42 }
{
    push_decimal_before(line, round, b' ');
    push_decimal_before(line, u64::from(link), b' ');
}

// The kind and the bus of the port, each before a space.
fn push_kind(line: &mut LineBuffer, kind: PortKind)
    requires { length line.old + 26 ≤ LineBuffer.ROOM }
    ensures text { line.new
        ≡ line.old ++ (kind_text kind.lite ++ 32 ∷ (decimal kind.bus ++ 32 ∷ [])) }
    ensures room { length line.new ≤ length line.old + 26 }
{
    if kind.lite {
        line.push(b"lite ");
    } else {
        line.push(b"axi ");
    }
    push_decimal_before(line, u64::from(kind.bus), b' ');
}

// The five channels, parted by spaces.
fn push_channels(line: &mut LineBuffer, r: &PortRound)
    requires bus { r.now.kind.bus ≤ 128 }
    requires space { length line.old + 2600 ≤ LineBuffer.ROOM }
    ensures text { line.new ≡ line.old ++ channels_text r.now }
    ensures room { length line.new ≤ length line.old + 2600 }
{
    push_channel(line, &r.aw, r.kind.bus);
    line.push(b" ");
    push_channel(line, &r.w, r.kind.bus);
    line.push(b" ");
    push_channel(line, &r.b, r.kind.bus);
    line.push(b" ");
    push_channel(line, &r.ar, r.kind.bus);
    line.push(b" ");
    push_channel(line, &r.r, r.kind.bus);
}
