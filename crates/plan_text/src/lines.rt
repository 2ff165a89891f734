//! The lines of a plan. Each call replaces the bytes of a line buffer by one line with its line feed.

ghost use Rattle.std.specs.Prelude.{◌≡◌, ◌<◌, ◌≤◌, length};
ghost use Rattle.elaborate.specs.Plan.{plan_link_at, plan_links, plan_node_at, plan_nodes};
ghost use Rattle.plan_text.specs.PlanText.{bound_line, plan_link_line, plan_node_line};

use crate::names::{part_name, protocol_name};
use elaborate::Plan;
use plain_text::line_buffer::LineBuffer;

/// Writes the line of a plan node: its number, what it is, and its name. The number is one of the plan's nodes, counted
/// from 0.
#[tactic(auto, unfolding(crate::specs::PlanText::plan_node_line))]
pub fn render_node(line: &mut LineBuffer, plan: &Plan, node: u32)
    requires { node < length (plan_nodes plan.now) }
    ensures { line.new ≡ plan_node_line node (plan_node_at plan.now node) }
{
    let name = short_name(plan, node);
    line.clear();
    line.push(b"node ");
    line.push_decimal(u64::from(node));
    line.push(b" ");
    line.push(part_name(plan.part(node)).as_bytes());
    line.push(b" ");
    line.push(name.as_bytes());
    line.push(b"\n");
}

// The name of a plan node. It is that of a node of the document, which is accepted, with a short end.
fn short_name(plan: &Plan, node: u32) -> &str
    requires { node < length (plan_nodes plan.now) }
    ensures name { result.now ≡ (plan_node_at plan.now node).name }
    ensures short { length result.now ≤ 38 }
{
    let _ = plan.wiring().count();
    plan.name(node)
}

/// Writes the line of a link: its number, the plan nodes above and below it, its protocol, the bytes of its bus, the bits
/// of its IDs, and the beats that each of its queues holds. The number is one of the plan's links, counted from 0.
#[tactic(auto, unfolding(crate::specs::PlanText::plan_link_line))]
pub fn render_link(line: &mut LineBuffer, plan: &Plan, link: u32)
    requires { link < length (plan_links plan.now) }
    ensures { line.new ≡ plan_link_line link (plan_link_at plan.now link) }
{
    let (upper, lower) = plan.ends(link);
    let kind = plan.kind(link);
    line.clear();
    line.push(b"link ");
    line.push_decimal(u64::from(link));
    line.push(b" ");
    line.push_decimal(u64::from(upper));
    line.push(b" ");
    line.push_decimal(u64::from(lower));
    line.push(b" ");
    line.push(protocol_name(kind.lite).as_bytes());
    line.push(b" ");
    line.push_decimal(u64::from(kind.bus));
    line.push(b" ");
    line.push_decimal(u64::from(plan.id_width(link)));
    line.push(b" ");
    line.push_decimal(u64::from(plan.depth(link)));
    line.push(b"\n");
}

/// Writes the last line of a plan's text: by how many rounds a run is finished at the latest, or that no number is known.
#[tactic(auto, unfolding(crate::specs::PlanText::bound_line))]
pub fn render_bound(line: &mut LineBuffer, bound: Option<u64>)
    ensures { line.new ≡ bound_line bound }
{
    line.clear();
    match bound {
        Some(rounds) => {
            line.push(b"bound ");
            line.push_decimal(rounds);
            line.push(b"\n");
        }
        None => line.push(b"bound -\n"),
    }
}
