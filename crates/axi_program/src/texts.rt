//! The line of a refusal, the line of a verdict on a trace, and the last line of a run.
//!
//! Each call replaces the bytes of a line buffer by one line with its line feed, and takes no memory.

ghost use Rattle.std.specs.Prelude.{◌≡◌, ◌≤◌, ◌+◌, ◌++◌, length};
ghost use Rattle.axi_program.specs.Text.{broken_line, channel_name, code_names_place, legal_line, name_of_code, place_text, refusal_line, rounds_line, rule_text};

use plain_text::line_buffer::LineBuffer;
use refusals::{Cause, Refusal};
use trace_judge::TraceFault;

/// Writes the line of a refusal: its code, the name of its cause, the place where the cause names one, and the rule
/// where the cause is a broken one.
#[tactic(auto, unfolding(crate::specs::Text::refusal_line))]
pub fn render_refusal(line: &mut LineBuffer, refusal: &Refusal)
    ensures { line.new ≡ refusal_line refusal.now }
{
    line.clear();
    line.push(b"refused ");
    line.push_decimal(u64::from(refusal.code));
    line.push(b" ");
    line.push(cause_name(refusal).as_bytes());
    push_place(line, refusal);
    push_rule(line, refusal);
    line.push(b"\n");
}

// Writes the place of a refusal, where its cause names one.
fn push_place(line: &mut LineBuffer, refusal: &Refusal)
    requires { length line.old ≤ 100 }
    ensures text { line.new ≡ line.old ++ place_text refusal.now }
    ensures room { length line.new ≤ length line.old + 21 }
{
    if names_place(refusal) {
        line.push(b" ");
        line.push_decimal(u64::from(refusal.place));
    }
}

// Whether the cause of a refusal names a place.
fn names_place(refusal: &Refusal) -> bool
    ensures { result ≡ code_names_place refusal.now.code }
{
    match refusal.cause() {
        Some(cause) => cause.names_place(),
        None => false,
    }
}

// Writes the rule of a refusal, where its cause is a broken rule.
fn push_rule(line: &mut LineBuffer, refusal: &Refusal)
    requires { length line.old ≤ 200 }
    ensures text { line.new ≡ line.old ++ rule_text refusal.now }
    ensures room { length line.new ≤ length line.old + 21 }
{
    if refusal.code == Cause::IllegalBurst.code() {
        line.push(b" ");
        line.push_decimal(u64::from(refusal.rule));
    }
}

// The name of the cause of a refusal.
fn cause_name(refusal: &Refusal) -> &'static str
    ensures name { result.now ≡ name_of_code refusal.now.code }
    ensures short { length result.now ≤ 14 }
{
    match refusal.cause() {
        Some(cause) => cause.name(),
        None => "",
    }
}

/// Writes the last line of a run, which says how many rounds it took.
#[tactic(auto, unfolding(crate::specs::Text::rounds_line))]
pub fn render_rounds(line: &mut LineBuffer, rounds: u64)
    ensures { line.new ≡ rounds_line rounds }
{
    line.clear();
    line.push(b"rounds ");
    line.push_decimal(rounds);
    line.push(b"\n");
}

/// Writes the line of a trace whose ports keep the rules: the number of its lines.
#[tactic(auto, unfolding(crate::specs::Text::legal_line))]
pub fn render_legal(line: &mut LineBuffer, lines: u32)
    ensures { line.new ≡ legal_line lines }
{
    line.clear();
    line.push(b"legal ");
    line.push_decimal(u64::from(lines));
    line.push(b"\n");
}

/// Writes the line of a broken rule: the line, the round, the link, the channel and the rule.
#[tactic(auto, unfolding(crate::specs::Text::broken_line))]
pub fn render_broken(line: &mut LineBuffer, fault: &TraceFault)
    ensures { line.new ≡ broken_line fault.now }
{
    line.clear();
    line.push(b"broken ");
    line.push_decimal(u64::from(fault.line));
    line.push(b" ");
    line.push_decimal(fault.round);
    line.push(b" ");
    line.push_decimal(u64::from(fault.link));
    line.push(b" ");
    line.push(channel_name(fault.channel).as_bytes());
    line.push(b" ");
    line.push_decimal(u64::from(fault.rule));
    line.push(b"\n");
}

// The name of a channel: 1 AW, 2 W, 3 B, 4 AR, 5 R.
fn channel_name(channel: u8) -> &'static str
    ensures name { result.now ≡ channel_name channel }
    ensures short { length result.now ≤ 2 }
{
    match channel {
        1 => "aw",
        2 => "w",
        3 => "b",
        4 => "ar",
        _ => "r",
    }
}
