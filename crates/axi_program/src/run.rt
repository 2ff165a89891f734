//! The run of a network, and its text.

ghost use Rattle.std.specs.Prelude.{◌≡◌, ◌<◌, ◌≤◌, ◌-◌, ◌++◌, IfOk, OnOk, OnErr, length};
ghost use Rattle.std.specs.Io.KnownBytes.{Appends};
ghost use Rattle.net_build.specs.Noted.{manager_of_place};
ghost use Rattle.topology_text.specs.Document.{node_at};
ghost use Rattle.axi_program.specs.DeviceBytes.{AppendsPrefix};
ghost use Rattle.axi_program.specs.Faults.{HasCause};
ghost use Rattle.axi_program.specs.Opening.{IsOpening, asked_by};
ghost use Rattle.axi_program.specs.Outcome.{ending_of, run_outcome, run_trace, text_of};
ghost use Rattle.axi_program.specs.Run.{run_end};
ghost use Rattle.axi_program.specs.Text.{answer_lines, line_of_number, run_text, separator_line, where_asked};

use crate::outside::sink::Sink;
use crate::outside::source::Failed;
use crate::outside::write_all::write_piece;
use crate::status::Ending;
use crate::texts::render_rounds;
use crate::trace::write_round;
use net_build::Net;
use plain_text::line_buffer::LineBuffer;
use trace_text::render_answers;

/// Runs a network from before its first round and writes the run's text, with the trace before it where one is asked
/// for. This takes no memory.
///
/// # Errors
///
/// A write failed. What was written is the front of the text.
pub fn run<K: Sink>(net: Net, line: LineBuffer, trace: bool, sink: &mut K) -> Result<Ending, Failed>
    requires { IsOpening net }
    ensures ending { IfOk result (λ ending. ending ≡ ending_of (run_outcome trace (asked_by net))) }
    ensures ok { OnOk result (Appends (K.written sink.old) (K.written sink.new) (text_of (run_outcome trace (asked_by net)))) }
    ensures err { OnErr result (AppendsPrefix (K.written sink.old) (K.written sink.new) (text_of (run_outcome trace (asked_by net)))) }
    ensures cause { HasCause (K.faults sink.old) (K.faults sink.new) result }
{
    let mut net = net;
    let mut line = line;
    run_to_end(&mut net, trace, &mut line, sink)?;
    write_answers(&net, trace, &mut line, sink)?;
    Ok(Ending::Done)
}

/// Makes rounds up to the first state in which every transaction is answered. No run takes more of them than its bound. It
/// writes the trace of each round before its moves are made, where one is asked for.
fn run_to_end<K: Sink>(
    net: &mut Net,
    trace: bool,
    line: &mut LineBuffer,
    sink: &mut K,
) -> Result<(), Failed>
    requires { IsOpening net.old }
    ensures ran { OnOk result (net.new ≡ run_end (asked_by net.old)) }
    ensures ok { OnOk result (Appends (K.written sink.old) (K.written sink.new) (where_asked trace (run_trace (asked_by net.old)))) }
    ensures err { OnErr result (AppendsPrefix (K.written sink.old) (K.written sink.new) (where_asked trace (run_trace (asked_by net.old)))) }
    ensures cause { HasCause (K.faults sink.old) (K.faults sink.new) result }
{
    let most = net.bound();
    for _round in 0..most {
        if net.finished() {
            return Ok(());
        }
        net.decide();
        write_round(net, trace, line, sink)?;
        net.commit();
    }
    Ok(())
}

/// Writes what stands after the trace of a run: the line that parts them, where there is a trace, and the text of the
/// answers.
fn write_answers<K: Sink>(
    net: &Net,
    trace: bool,
    line: &mut LineBuffer,
    sink: &mut K,
) -> Result<(), Failed>
    ensures ok { OnOk result (Appends (K.written sink.old) (K.written sink.new) (where_asked trace separator_line ++ run_text net.now)) }
    ensures err { OnErr result (AppendsPrefix (K.written sink.old) (K.written sink.new) (where_asked trace separator_line ++ run_text net.now)) }
    ensures cause { HasCause (K.faults sink.old) (K.faults sink.new) result }
{
    write_separator(trace, sink)?;
    write_text(net, line, sink)
}

/// Writes the line that parts a trace from the answers, where there is a trace.
fn write_separator<K: Sink>(trace: bool, sink: &mut K) -> Result<(), Failed>
    ensures ok { OnOk result (Appends (K.written sink.old) (K.written sink.new) (where_asked trace separator_line)) }
    ensures err { OnErr result (AppendsPrefix (K.written sink.old) (K.written sink.new) (where_asked trace separator_line)) }
    ensures cause { HasCause (K.faults sink.old) (K.faults sink.new) result }
{
    if !trace {
        return Ok(());
    }
    write_piece(sink, b"%%\n")
}

/// Writes the text of a run.
fn write_text<K: Sink>(net: &Net, line: &mut LineBuffer, sink: &mut K) -> Result<(), Failed>
    ensures ok { OnOk result (Appends (K.written sink.old) (K.written sink.new) (run_text net.now)) }
    ensures err { OnErr result (AppendsPrefix (K.written sink.old) (K.written sink.new) (run_text net.now)) }
    ensures cause { HasCause (K.faults sink.old) (K.faults sink.new) result }
{
    write_lines(net, line, sink)?;
    render_rounds(line, net.rounds());
    write_piece(sink, line.bytes())
}

/// Writes the lines of the answers, in order of the transactions' numbers.
fn write_lines<K: Sink>(net: &Net, line: &mut LineBuffer, sink: &mut K) -> Result<(), Failed>
    ensures ok { OnOk result (Appends (K.written sink.old) (K.written sink.new) (answer_lines net.now net.now.items)) }
    ensures err { OnErr result (AppendsPrefix (K.written sink.old) (K.written sink.new) (answer_lines net.now net.now.items)) }
    ensures cause { HasCause (K.faults sink.old) (K.faults sink.new) result }
{
    for place in 0..net.traffic().count() {
        write_line(net, place + 1, line, sink)?;
    }
    Ok(())
}

/// Writes the line of a transaction by its number, where it is answered.
fn write_line<K: Sink>(
    net: &Net,
    number: u32,
    line: &mut LineBuffer,
    sink: &mut K,
) -> Result<(), Failed>
    requires from { 0 < number }
    requires to { number ≤ length net.now.items }
    ensures ok { OnOk result (Appends (K.written sink.old) (K.written sink.new) (line_of_number net.now number)) }
    ensures err { OnErr result (AppendsPrefix (K.written sink.old) (K.written sink.new) (line_of_number net.now number)) }
    ensures cause { HasCause (K.faults sink.old) (K.faults sink.new) result }
{
    let traffic = net.traffic();
    match net.answer(number) {
        Some(answer) => {
            render_answers(line, manager_name(net, number), traffic.txn(number), answer);
            write_piece(sink, line.bytes())
        }
        None => Ok(()),
    }
}

/// The name of the manager of a transaction by its number.
fn manager_name(net: &Net, number: u32) -> &str
    requires from { 0 < number }
    requires to { number ≤ length net.now.items }
    ensures name { result.now ≡ (node_at net.now.nodes (manager_of_place net.now.items (number - 1))).name }
    ensures short { length result.now ≤ 32 }
{
    let wiring = net.plan().wiring();
    // The document is accepted, and the keys of its nodes are within their limits.
    let _ = wiring.count();
    wiring.name(net.traffic().manager(number))
}
