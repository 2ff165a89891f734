//! The text of a plan, written line by line.

ghost use Rattle.std.specs.Prelude.{◌≡◌, ◌<◌, ◌++◌, IfOk, OnOk, OnErr, length};
ghost use Rattle.std.specs.Io.KnownBytes.{Appends};
ghost use Rattle.elaborate.specs.Plan.{plan_link_at, plan_links, plan_node_at, plan_nodes};
ghost use Rattle.plan_text.specs.PlanText.{bound_line, plan_link_line, plan_link_lines, plan_node_line, plan_node_lines, plan_text};
ghost use Rattle.axi_program.specs.DeviceBytes.{AppendsPrefix};
ghost use Rattle.axi_program.specs.Faults.{HasCause};

use crate::outside::sink::Sink;
use crate::outside::source::Failed;
use crate::outside::write_all::write_piece;
use crate::status::Ending;
use elaborate::Plan;
use plain_text::line_buffer::LineBuffer;
use plan_text::{render_bound, render_link, render_node};

/// Writes the text of a plan: its nodes, its links, and the bound on the rounds of its run. This takes no memory.
///
/// # Errors
///
/// A write failed. What was written is the front of the text.
pub fn write_plan<K: Sink>(
    plan: &Plan,
    bound: Option<u64>,
    line: LineBuffer,
    sink: &mut K,
) -> Result<Ending, Failed>
    ensures ending { IfOk result (λ ending. ending ≡ Ending.Done) }
    ensures ok { OnOk result (Appends (K.written sink.old) (K.written sink.new) (plan_text plan.now bound)) }
    ensures err { OnErr result (AppendsPrefix (K.written sink.old) (K.written sink.new) (plan_text plan.now bound)) }
    ensures cause { HasCause (K.faults sink.old) (K.faults sink.new) result }
{
    let mut line = line;
    write_nodes(plan, &mut line, sink)?;
    write_rest(plan, bound, &mut line, sink)?;
    Ok(Ending::Done)
}

/// Writes the lines of the plan's nodes, in order of number.
fn write_nodes<K: Sink>(plan: &Plan, line: &mut LineBuffer, sink: &mut K) -> Result<(), Failed>
    ensures ok { OnOk result (Appends (K.written sink.old) (K.written sink.new) (plan_node_lines plan.now)) }
    ensures err { OnErr result (AppendsPrefix (K.written sink.old) (K.written sink.new) (plan_node_lines plan.now)) }
    ensures cause { HasCause (K.faults sink.old) (K.faults sink.new) result }
{
    for number in 0..plan.nodes() {
        write_node(plan, number, line, sink)?;
    }
    Ok(())
}

/// Writes the line of a node.
fn write_node<K: Sink>(
    plan: &Plan,
    number: u32,
    line: &mut LineBuffer,
    sink: &mut K,
) -> Result<(), Failed>
    requires { number < length (plan_nodes plan.now) }
    ensures ok { OnOk result (Appends (K.written sink.old) (K.written sink.new) (plan_node_line number (plan_node_at plan.now number))) }
    ensures err { OnErr result (AppendsPrefix (K.written sink.old) (K.written sink.new) (plan_node_line number (plan_node_at plan.now number))) }
    ensures cause { HasCause (K.faults sink.old) (K.faults sink.new) result }
{
    render_node(line, plan, number);
    write_piece(sink, line.bytes())
}

/// Writes what stands behind the lines of the nodes.
fn write_rest<K: Sink>(
    plan: &Plan,
    bound: Option<u64>,
    line: &mut LineBuffer,
    sink: &mut K,
) -> Result<(), Failed>
    ensures ok { OnOk result (Appends (K.written sink.old) (K.written sink.new) (plan_link_lines plan.now ++ bound_line bound)) }
    ensures err { OnErr result (AppendsPrefix (K.written sink.old) (K.written sink.new) (plan_link_lines plan.now ++ bound_line bound)) }
    ensures cause { HasCause (K.faults sink.old) (K.faults sink.new) result }
{
    write_links(plan, line, sink)?;
    write_bound(bound, line, sink)
}

/// Writes the lines of the plan's links, in order of number.
fn write_links<K: Sink>(plan: &Plan, line: &mut LineBuffer, sink: &mut K) -> Result<(), Failed>
    ensures ok { OnOk result (Appends (K.written sink.old) (K.written sink.new) (plan_link_lines plan.now)) }
    ensures err { OnErr result (AppendsPrefix (K.written sink.old) (K.written sink.new) (plan_link_lines plan.now)) }
    ensures cause { HasCause (K.faults sink.old) (K.faults sink.new) result }
{
    for number in 0..plan.links() {
        write_link(plan, number, line, sink)?;
    }
    Ok(())
}

/// Writes the line of a link.
fn write_link<K: Sink>(
    plan: &Plan,
    number: u32,
    line: &mut LineBuffer,
    sink: &mut K,
) -> Result<(), Failed>
    requires { number < length (plan_links plan.now) }
    ensures ok { OnOk result (Appends (K.written sink.old) (K.written sink.new) (plan_link_line number (plan_link_at plan.now number))) }
    ensures err { OnErr result (AppendsPrefix (K.written sink.old) (K.written sink.new) (plan_link_line number (plan_link_at plan.now number))) }
    ensures cause { HasCause (K.faults sink.old) (K.faults sink.new) result }
{
    render_link(line, plan, number);
    write_piece(sink, line.bytes())
}

/// Writes the line of the bound.
fn write_bound<K: Sink>(
    bound: Option<u64>,
    line: &mut LineBuffer,
    sink: &mut K,
) -> Result<(), Failed>
    ensures ok { OnOk result (Appends (K.written sink.old) (K.written sink.new) (bound_line bound)) }
    ensures err { OnErr result (AppendsPrefix (K.written sink.old) (K.written sink.new) (bound_line bound)) }
    ensures cause { HasCause (K.faults sink.old) (K.faults sink.new) result }
{
    render_bound(line, bound);
    write_piece(sink, line.bytes())
}
