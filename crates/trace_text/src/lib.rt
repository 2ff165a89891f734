//! The lines of a trace: what one port shows in one round, written and read exactly. And the lines of
//! answers, which [`render_answers`] writes.
//!
//! A trace line is `<round> <link> <kind> <bus> <aw> <w> <b> <ar> <r>`, as in
//! `2 0 axi 4 +1,10,0,2,1,0,1:0:0 - - - -`. A channel that offers nothing is `-`. A beat that is offered
//! stands behind `+` where it is taken in the round and behind `=` where it isn't. (Arm IHI 0022,
//! handshake process and channel signals.)
//!
//! One relation, `Line`, ties a port's round to its text. [`render_round`] writes the text of a round,
//! and [`read_trace_line`] answers the round of a text and refuses exactly the texts that are the line
//! of no round. Neither takes memory.
#![tactic(auto)]

ghost use Rattle.trace_text.specs.LineLaws.{LinesAreExact, LinesAreUnique};

mod answers;
mod channel;
mod fields;
mod reading;
mod trace_beat;
mod writing;

pub use answers::render_answers;
pub use plain_text::line_buffer::LineBuffer;
pub use reading::{LineFault, read_round, read_trace_line};
pub use writing::render_round;

/// The law that a text is the trace line of at most one round.
pub fn lines_are_unique()
    ensures { LinesAreUnique }
{}

/// The law that a round within the ranges is read from its own text as itself, and a text that is read
/// is written as itself.
pub fn lines_are_exact()
    ensures { LinesAreExact }
{}
