//! A node of a network for each part of a plan, with the keys of the document and what the traffic asks.

ghost use Rattle.std.specs.Prelude.{◌≡◌, ◌<◌, All, IfOk, length, map};
ghost use Rattle.elaborate.specs.Plan.{plan_link_at, plan_links, plan_node_at, plan_nodes};
ghost use Rattle.elaborate.specs.declared.part.Part.TheVariants as part;
ghost use Rattle.net_build.specs.Source.{IsSource};
ghost use Rattle.net_kinds.specs.NodeKind.{node_view};
ghost use Rattle.net_opening.specs.Opening.{state_at, state_by_part};
ghost use Rattle.node_core.specs.Acted.{opened};
ghost use Rattle.topology.specs.Document.{widest};

use crate::linked::LinkedPlan;
use crate::memories::memory_on;
use crate::ranges::map_of;
use crate::source::Source;
use axi_beats::NoMemory;
use demux_node::DemuxNode;
use elaborate::Part;
use error_node::ErrorNode;
use lite_memory_node::LiteMemoryNode;
use lite_node::LiteNode;
use manager_node::ManagerNode;
use mux_node::MuxNode;
use net_kinds::Node;
use remap_node::RemapNode;
use slice_node::SliceNode;
use split_node::SplitNode;
use std::alloc::{AllocError, Global};
use up_node::UpNode;

/// The plan node of a number as its kind begins. A down converter, which can't be run yet, stands as a
/// slice.
pub(crate) fn node_of(alloc: Global, source: &Source<'_>, number: u32) -> Result<Node, NoMemory>
    requires source { IsSource source.now.plan.now source.now.traffic.now source.now.targets.now }
    requires known { number < length (plan_nodes source.now.plan.now) }
    ensures { IfOk result (λ node. node_view node ≡ opened (state_at source.now.plan.now source.now.traffic.now number)) }
{
    match source.plan.part(number) {
        Part::Manager => manager_node(alloc, source, number),
        Part::Memory => memory_node(alloc, source, number),
        Part::Mux => mux_node(alloc, source, number),
        Part::Demux => demux_node(alloc, source, number),
        Part::Error => error_node(alloc, source, number),
        Part::Remap => remap_node(alloc, source, number),
        Part::Up => up_node(alloc, source, number),
        Part::Split => split_node(alloc, source, number),
        Part::Lite => lite_node(alloc, source, number),
        Part::LiteMemory => lite_memory_node(alloc, source, number),
        Part::Slice | Part::Down => Ok(slice_node(source, number)),
    }
}

// A slice between its two links.
fn slice_node(source: &Source<'_>, number: u32) -> Node
    requires { number < length (plan_nodes source.now.plan.now) }
    ensures { node_view result ≡ opened (state_by_part source.now.plan.now source.now.traffic.now number part.Slice) }
{
    let upper = source.plan.link_into(number);
    let lower = source.plan.link_out_of(number);
    Node::Slice(SliceNode::new(upper, lower))
}

// An error subordinate below its link.
fn error_node(alloc: Global, source: &Source<'_>, number: u32) -> Result<Node, NoMemory>
    requires { number < length (plan_nodes source.now.plan.now) }
    ensures { IfOk result (λ node. node_view node ≡ opened (state_by_part source.now.plan.now source.now.traffic.now number part.Error)) }
{
    let upper = source.plan.link_into(number);
    let node = ErrorNode::new(upper);
    Ok(Node::Error(boxed(alloc, node)?))
}

// A mux, with room for the widest IDs of its inputs.
fn mux_node(alloc: Global, source: &Source<'_>, number: u32) -> Result<Node, NoMemory>
    requires source { IsSource source.now.plan.now source.now.traffic.now source.now.targets.now }
    requires known { number < length (plan_nodes source.now.plan.now) }
    requires mux { (plan_node_at source.now.plan.now number).part ≡ part.Mux }
    ensures { IfOk result (λ node. node_view node ≡ opened (state_by_part source.now.plan.now source.now.traffic.now number part.Mux)) }
{
    let uppers = source.plan.links_into(number);
    let lower = source.plan.link_out_of(number);
    let width = widest(source.plan, uppers);
    Ok(Node::Mux(MuxNode::new(uppers, lower, width)))
}

// The widest IDs of some links.
fn widest(plan: &LinkedPlan<'_>, links: &[u32]) -> u8
    requires { All (λ link. link < length (plan_links plan.now)) links.now }
    ensures { result ≡ widest (map (λ link. (plan_link_at plan.now link).link) links.now) }
{
    let mut most = 0;
    for link in links {
        most = most.max(plan.id_width(*link));
    }
    most
}

// A remapper, with IDs below of the width that its document node names.
fn remap_node(alloc: Global, source: &Source<'_>, number: u32) -> Result<Node, NoMemory>
    requires source { IsSource source.now.plan.now source.now.traffic.now source.now.targets.now }
    requires known { number < length (plan_nodes source.now.plan.now) }
    requires remap { (plan_node_at source.now.plan.now number).part ≡ part.Remap }
    ensures { IfOk result (λ node. node_view node ≡ opened (state_by_part source.now.plan.now source.now.traffic.now number part.Remap)) }
{
    let upper = source.plan.link_into(number);
    let lower = source.plan.link_out_of(number);
    let document = source.plan.document(number);
    let width = source.plan.wiring().id_width(document);
    let node = RemapNode::new(upper, lower, width);
    Ok(Node::Remap(boxed(alloc, node)?))
}

// An up converter, from the bus above it to the bus that its document node names.
fn up_node(alloc: Global, source: &Source<'_>, number: u32) -> Result<Node, NoMemory>
    requires source { IsSource source.now.plan.now source.now.traffic.now source.now.targets.now }
    requires known { number < length (plan_nodes source.now.plan.now) }
    requires up { (plan_node_at source.now.plan.now number).part ≡ part.Up }
    ensures { IfOk result (λ node. node_view node ≡ opened (state_by_part source.now.plan.now source.now.traffic.now number part.Up)) }
{
    let upper = source.plan.link_into(number);
    let lower = source.plan.link_out_of(number);
    let above = source.plan.kind(upper);
    let document = source.plan.document(number);
    let wide = source.plan.wiring().bus(document);
    let node = UpNode::new(upper, lower, above.bus, wide);
    Ok(Node::Up(boxed(alloc, node)?))
}

// A burst splitter between its two links.
fn split_node(alloc: Global, source: &Source<'_>, number: u32) -> Result<Node, NoMemory>
    requires { number < length (plan_nodes source.now.plan.now) }
    ensures { IfOk result (λ node. node_view node ≡ opened (state_by_part source.now.plan.now source.now.traffic.now number part.Split)) }
{
    let upper = source.plan.link_into(number);
    let lower = source.plan.link_out_of(number);
    let node = SplitNode::new(upper, lower);
    Ok(Node::Split(boxed(alloc, node)?))
}

// A Lite bridge, with the bus of the links around it.
fn lite_node(alloc: Global, source: &Source<'_>, number: u32) -> Result<Node, NoMemory>
    requires source { IsSource source.now.plan.now source.now.traffic.now source.now.targets.now }
    requires known { number < length (plan_nodes source.now.plan.now) }
    requires lite { (plan_node_at source.now.plan.now number).part ≡ part.Lite }
    ensures { IfOk result (λ node. node_view node ≡ opened (state_by_part source.now.plan.now source.now.traffic.now number part.Lite)) }
{
    let upper = source.plan.link_into(number);
    let lower = source.plan.link_out_of(number);
    let above = source.plan.kind(upper);
    let node = LiteNode::new(upper, lower, above.bus);
    Ok(Node::Lite(boxed(alloc, node)?))
}

// A demux, with the regions of its document node.
fn demux_node(alloc: Global, source: &Source<'_>, number: u32) -> Result<Node, NoMemory>
    requires source { IsSource source.now.plan.now source.now.traffic.now source.now.targets.now }
    requires known { number < length (plan_nodes source.now.plan.now) }
    requires demux { (plan_node_at source.now.plan.now number).part ≡ part.Demux }
    ensures { IfOk result (λ node. node_view node ≡ opened (state_by_part source.now.plan.now source.now.traffic.now number part.Demux)) }
{
    let upper = source.plan.link_into(number);
    let lowers = source.plan.links_out_of(number);
    let document = source.plan.document(number);
    let map = map_of(alloc, source.plan.wiring(), document)?;
    let node = DemuxNode::new(upper, lowers, map);
    Ok(Node::Demux(boxed(alloc, node)?))
}

// A manager, with the transactions of its document node.
fn manager_node(alloc: Global, source: &Source<'_>, number: u32) -> Result<Node, NoMemory>
    requires source { IsSource source.now.plan.now source.now.traffic.now source.now.targets.now }
    requires known { number < length (plan_nodes source.now.plan.now) }
    requires manager { (plan_node_at source.now.plan.now number).part ≡ part.Manager }
    ensures { IfOk result (λ node. node_view node ≡ opened (state_by_part source.now.plan.now source.now.traffic.now number part.Manager)) }
{
    let wiring = source.plan.wiring();
    let document = source.plan.document(number);
    let script = source.traffic.script(alloc, document)?;
    let lower = source.plan.link_out_of(number);
    let node = ManagerNode::new(
        alloc,
        script,
        lower,
        wiring.bus(document),
        wiring.accept(document),
        wiring.give(document),
    )?;
    Ok(Node::Manager(boxed(alloc, node)?))
}

// A memory, with the bus that its document node names.
fn memory_node(alloc: Global, source: &Source<'_>, number: u32) -> Result<Node, NoMemory>
    requires source { IsSource source.now.plan.now source.now.traffic.now source.now.targets.now }
    requires known { number < length (plan_nodes source.now.plan.now) }
    requires memory { (plan_node_at source.now.plan.now number).part ≡ part.Memory }
    ensures { IfOk result (λ node. node_view node ≡ opened (state_by_part source.now.plan.now source.now.traffic.now number part.Memory)) }
{
    let document = source.plan.document(number);
    let bus = source.plan.wiring().bus(document);
    let memory = memory_on(alloc, source, number, bus)?;
    Ok(Node::Memory(boxed(alloc, memory)?))
}

// A Lite memory, with the bus of the link above it.
fn lite_memory_node(alloc: Global, source: &Source<'_>, number: u32) -> Result<Node, NoMemory>
    requires source { IsSource source.now.plan.now source.now.traffic.now source.now.targets.now }
    requires known { number < length (plan_nodes source.now.plan.now) }
    requires memory { (plan_node_at source.now.plan.now number).part ≡ part.LiteMemory }
    ensures { IfOk result (λ node. node_view node ≡ opened (state_by_part source.now.plan.now source.now.traffic.now number part.LiteMemory)) }
{
    let upper = source.plan.link_into(number);
    let above = source.plan.kind(upper);
    let memory = memory_on(alloc, source, number, above.bus)?;
    let node = LiteMemoryNode::new(memory);
    Ok(Node::LiteMemory(boxed(alloc, node)?))
}

// A value in a block of its own.
fn boxed<T: Drop>(alloc: Global, value: T) -> Result<Box<T>, AllocError>
    ensures { IfOk result (λ boxed. boxed.value ≡ value) }
{
    Ok(Box::new(alloc, value)?)
}
