//! The links between plan nodes.

ghost use Rattle.std.specs.Prelude.{◌≡◌, ◌<◌, ◌++◌, IfOk, OnOk, length};
ghost use Rattle.topology.specs.Refused.{IsAccepted};
ghost use Rattle.elaborate.specs.Plan.{links_below, plan_links, plan_nodes};

use crate::link::PlanLink;
use crate::node::NodeParts;
use std::alloc::{AllocError, Global};
use topology::Wiring;

/// The links below all plan nodes, in order of node and port.
pub(crate) fn plan_links(
    alloc: Global,
    wiring: &Wiring,
    nodes: &[NodeParts],
) -> Result<Vec<PlanLink>, AllocError>
    requires nodes { nodes.now ≡ plan_nodes wiring.now }
    requires accepted { IsAccepted wiring.now }
    ensures { IfOk result (λ links. links.items ≡ plan_links wiring.now) }
{
    let mut links = Vec::new(alloc);
    for (number, node) in nodes.iter().enumerate() {
        push_links(&mut links, wiring, number as u32, node)?;
    }
    Ok(links)
}

// Adds the links below a plan node.
fn push_links(
    links: &mut Vec<PlanLink>,
    wiring: &Wiring,
    number: u32,
    node: &NodeParts,
) -> Result<(), AllocError>
    requires { node.now.document < length wiring.now }
    ensures { OnOk result (links.new.items ≡ links.old.items ++ links_below wiring.now number node.now) }
{
    let depth = wiring.depth(node.document());
    let link = node.link();
    let lowers = node.lower();
    for lower in lowers {
        links.push(PlanLink {
            upper: number,
            lower: *lower,
            link,
            depth,
        })?;
    }
    Ok(())
}
