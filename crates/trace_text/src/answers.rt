//! The line of a transaction and its answer is written. (Arm IHI 0022, read and write response
//! structure.)

ghost use Rattle.std.specs.Prelude.{◌≡◌, ◌<◌, ◌≤◌, ◌+◌, ◌*◌, ◌++◌, ◌^◌, drop, length, take};
ghost use Rattle.burst_address.specs.Legal.{IsLegal};
ghost use Rattle.trace_text.specs.AnswerLine.{answer_line, beat_text, direction, outcome, read_outcome, response_name, write_outcome};

use axi_beats::{Addr, Resp};
use burst_address::beat_count;
use manager_node::{Answer, Txn};
use plain_text::line_buffer::LineBuffer;

/// Replaces the bytes of the buffer by the line of a transaction and its answer and a line feed. Takes
/// no memory.
///
/// The line has the transaction's number, its direction, the name of its manager, the rounds of its
/// issue and of its answer, and what came for it: the response to a write, or of each beat of a read
/// the response and the bytes of its valid lanes.
///
/// The name has at most 32 bytes. The transaction is a burst that is legal on the widest bus, and its
/// answer has at most as many beats as that burst, with at most the 4096 bytes of a page.
#[tactic(auto, unfolding(crate::specs::AnswerLine::answer_line))]
pub fn render_answers(line: &mut LineBuffer, manager: &str, txn: &Txn, answer: &Answer)
    requires name { length manager.now ≤ 32 }
    requires start { txn.now.request.addr < 2 ^ 63 }
    requires legal { IsLegal txn.now.request 128 }
    requires beats { length answer.now.resps ≤ txn.now.request.len + 1 }
    requires bytes { length answer.now.bytes ≤ 4096 }
    ensures { line.new ≡ answer_line manager.now txn.now answer.now }
{
    line.clear();
    line.push_decimal(u64::from(txn.number));
    line.push(direction(txn.write).as_bytes());
    line.push(manager.as_bytes());
    line.push(b" ");
    line.push_decimal(answer.issued());
    line.push(b" ");
    line.push_decimal(answer.answered());
    push_outcome(line, txn, answer);
    line.push(b"\n");
}

// The word for a direction, between spaces.
fn direction(write: bool) -> &'static str
    ensures name { result.now ≡ direction write }
    ensures short { length result.now ≤ 7 }
{
    if write { " write " } else { " read " }
}

// Writes what came for a transaction.
fn push_outcome(line: &mut LineBuffer, txn: &Txn, answer: &Answer)
    requires place { length line.old ≤ 200 }
    requires start { txn.now.request.addr < 2 ^ 63 }
    requires legal { IsLegal txn.now.request 128 }
    requires beats { length answer.now.resps ≤ txn.now.request.len + 1 }
    requires bytes { length answer.now.bytes ≤ 4096 }
    ensures text { line.new ≡ line.old ++ outcome txn.now answer.now }
    ensures room { length line.new ≤ length line.old + 8 * 256 + 2 * 4096 }
{
    if txn.write {
        push_response(line, answer);
    } else {
        push_beats(line, &txn.request, answer);
    }
}

// Writes the one response to a write.
fn push_response(line: &mut LineBuffer, answer: &Answer)
    requires { length line.old ≤ 200 }
    ensures text { line.new ≡ line.old ++ write_outcome answer.now.resps }
    ensures room { length line.new ≤ length line.old + 7 }
{
    if answer.beats() > 0 {
        line.push(b" ");
        line.push(response_name(answer.resp(0)).as_bytes());
    }
}

// Writes the beats of a read, each with the bytes of its valid lanes.
fn push_beats(line: &mut LineBuffer, request: &Addr, answer: &Answer)
    requires place { length line.old ≤ 200 }
    requires start { request.now.addr < 2 ^ 63 }
    requires legal { IsLegal request.now 128 }
    requires beats { length answer.now.resps ≤ request.now.len + 1 }
    requires bytes { length answer.now.bytes ≤ 4096 }
    ensures text { line.new ≡ line.old ++ read_outcome request.now 0 answer.now.resps answer.now.bytes }
    ensures room { length line.new ≤ length line.old + 8 * 256 + 2 * 4096 }
{
    let mut bytes = answer.bytes();
    for beat in 0..answer.beats() {
        let (front, rest) = split_front(bytes, beat_count(request, beat));
        push_beat(line, answer.resp(beat), front);
        bytes = rest;
    }
}

// Writes one beat of a read.
fn push_beat(line: &mut LineBuffer, resp: Resp, bytes: &[u8])
    requires { length line.old + 8 + 2 * length bytes.now ≤ LineBuffer.ROOM }
    ensures text { line.new ≡ line.old ++ beat_text resp bytes.now }
    ensures room { length line.new ≤ length line.old + 8 + 2 * length bytes.now }
{
    line.push(b" ");
    line.push(response_name(resp).as_bytes());
    line.push(b":");
    line.push_pairs(bytes);
}

// How a response is written.
fn response_name(resp: Resp) -> &'static str
    ensures name { result.now ≡ response_name resp }
    ensures short { length result.now ≤ 6 }
{
    match resp {
        Resp::Okay => "okay",
        Resp::SlvErr => "slverr",
        Resp::DecErr => "decerr",
    }
}

// The first bytes, as many of `count` as there are, and those behind them.
fn split_front(bytes: &[u8], count: usize) -> (&[u8], &[u8])
    ensures front { result.0.now ≡ take count bytes.now }
    ensures rest { result.1.now ≡ drop count bytes.now }
{
    let end = count.min(bytes.len());
    (&bytes[..end], &bytes[end..])
}
