//! The trace of a run: the lines of its links, written round by round.

ghost use Rattle.std.specs.Prelude.{◌≡◌, ◌<◌, ◌+◌, length, true, OnOk, OnErr};
ghost use Rattle.std.specs.Io.KnownBytes.{Appends};
ghost use Rattle.elaborate.specs.Plan.{plan_links};
ghost use Rattle.net_build.specs.NetRun.{network_of_run};
ghost use Rattle.axi_program.specs.DeviceBytes.{AppendsPrefix};
ghost use Rattle.axi_program.specs.Faults.{HasCause};
ghost use Rattle.axi_program.specs.Text.{where_asked};
ghost use Rattle.axi_program.specs.Trace.{link_line, round_lines};

use crate::outside::sink::Sink;
use crate::outside::source::Failed;
use crate::outside::write_all::write_piece;
use net_build::Net;
use plain_text::line_buffer::LineBuffer;
use trace_text::render_round;

/// Writes the lines of the round in which the nodes have decided, where a trace is asked for.
pub fn write_round<K: Sink>(
    net: &Net,
    trace: bool,
    line: &mut LineBuffer,
    sink: &mut K,
) -> Result<(), Failed>
    requires { net.now.decided ≡ true }
    ensures ok { OnOk result (Appends (K.written sink.old) (K.written sink.new)
        (where_asked trace (round_lines (net.now.rounds + 1) (network_of_run net.now)))) }
    ensures err { OnErr result (AppendsPrefix (K.written sink.old) (K.written sink.new)
        (where_asked trace (round_lines (net.now.rounds + 1) (network_of_run net.now)))) }
    ensures cause { HasCause (K.faults sink.old) (K.faults sink.new) result }
{
    if !trace {
        return Ok(());
    }
    write_links(net, line, sink)
}

/// Writes the lines of all links in the round in which the nodes have decided.
fn write_links<K: Sink>(net: &Net, line: &mut LineBuffer, sink: &mut K) -> Result<(), Failed>
    requires { net.now.decided ≡ true }
    ensures ok { OnOk result (Appends (K.written sink.old) (K.written sink.new)
        (round_lines (net.now.rounds + 1) (network_of_run net.now))) }
    ensures err { OnErr result (AppendsPrefix (K.written sink.old) (K.written sink.new)
        (round_lines (net.now.rounds + 1) (network_of_run net.now))) }
    ensures cause { HasCause (K.faults sink.old) (K.faults sink.new) result }
{
    for number in 0..net.links() {
        write_link(net, number, line, sink)?;
    }
    Ok(())
}

/// Writes the line of a link in the round in which the nodes have decided, where it has one. A link that offers nothing
/// is passed over before its port is made, for most links are idle in most rounds.
fn write_link<K: Sink>(
    net: &Net,
    number: u32,
    line: &mut LineBuffer,
    sink: &mut K,
) -> Result<(), Failed>
    requires decided { net.now.decided ≡ true }
    requires known { number < length (plan_links net.now.nodes) }
    ensures ok { OnOk result (Appends (K.written sink.old) (K.written sink.new)
        (link_line (net.now.rounds + 1) (network_of_run net.now) number)) }
    ensures err { OnErr result (AppendsPrefix (K.written sink.old) (K.written sink.new)
        (link_line (net.now.rounds + 1) (network_of_run net.now) number)) }
    ensures cause { HasCause (K.faults sink.old) (K.faults sink.new) result }
{
    if !net.offers(number) {
        return Ok(());
    }
    render_round(line, &net.port(number));
    write_piece(sink, line.bytes())
}
