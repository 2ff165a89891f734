//! The memories of a plan, of AXI4 and of AXI4-Lite.

ghost use Rattle.std.specs.Prelude.{◌≡◌, ◌<◌, IfOk, length};
ghost use Rattle.elaborate.specs.Plan.{plan_nodes};
ghost use Rattle.memory_node.specs.MemoryTrail.{BeginsMemory};
ghost use Rattle.net_build.specs.Source.{IsSource, memory_on};
ghost use Rattle.net_opening.specs.States.{document_node_of};
ghost use Rattle.node_core.specs.Acted.{opened};
ghost use Rattle.topology.specs.Document.{node_at};
ghost use Rattle.topology_text.specs.Formed.{AreDelays};

use crate::lines::lines_touched;
use crate::ranges::memory_ranges;
use crate::source::Source;
use axi_beats::NoMemory;
use memory_node::{MemoryConfig, MemoryNode};
use std::alloc::Global;
use topology::Wiring;

/// The memory of a plan node on a bus of `bus` bytes, which keeps the lines that the traffic touches.
pub(crate) fn memory_on(
    alloc: Global,
    source: &Source<'_>,
    number: u32,
    bus: u8,
) -> Result<MemoryNode, NoMemory>
    requires source { IsSource source.now.plan.now source.now.traffic.now source.now.targets.now }
    requires known { number < length (plan_nodes source.now.plan.now) }
    requires begins { BeginsMemory (memory_on source.now.plan.now source.now.traffic.now number bus) }
    requires accept { AreDelays (document_node_of source.now.plan.now number).accept }
    requires give { AreDelays (document_node_of source.now.plan.now number).give }
    ensures { IfOk result (λ memory. memory ≡ opened (memory_on source.now.plan.now source.now.traffic.now number bus)) }
{
    let wiring = source.plan.wiring();
    let document = source.plan.document(number);
    let read_only = memory_ranges(alloc, wiring.read_only(document))?;
    let hole = memory_ranges(alloc, wiring.hole(document))?;
    let upper = source.plan.link_into(number);
    let touched = lines_touched(alloc, source, number)?;
    MemoryNode::new(
        alloc,
        memory_config(wiring, document, bus),
        &read_only,
        &hole,
        wiring.accept(document),
        wiring.give(document),
        upper,
        &touched,
    )
}

// What the keys of a document node say of a memory on a bus.
fn memory_config(wiring: &Wiring, document: u32, bus: u8) -> MemoryConfig
    requires { document < length wiring.now }
    ensures { result ≡ record {
      base = (node_at wiring.now document).base;
      size = (node_at wiring.now document).size;
      bus = bus;
      fill = (node_at wiring.now document).fill;
    } }
{
    MemoryConfig {
        base: wiring.base(document),
        size: wiring.size(document),
        bus,
        fill: wiring.fill(document),
    }
}
