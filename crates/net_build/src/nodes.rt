//! The nodes of the network of a plan.

ghost use Rattle.std.specs.Prelude.{◌≡◌, ◌++◌, ◌∷◌, [], IfOk, OnOk, map};
ghost use Rattle.net_build.specs.Source.{IsSource};
ghost use Rattle.net_kinds.specs.NodeKind.{node_view};
ghost use Rattle.net_opening.specs.Opening.{opening};

use crate::parts::node_of;
use crate::source::Source;
use axi_beats::NoMemory;
use net_kinds::Node;
use std::alloc::{AllocError, Global};

/// The nodes of a plan as their kinds begin, in order of number.
#[tactic(auto, unfolding(node_graph::specs::Graph::numbers))]
pub(crate) fn net_nodes(alloc: Global, source: &Source<'_>) -> Result<Vec<Node>, NoMemory>
    requires { IsSource source.now.plan.now source.now.traffic.now source.now.targets.now }
    ensures { IfOk result (λ nodes. map node_view nodes.items ≡ (opening source.now.plan.now source.now.traffic.now).nodes) }
{
    let mut nodes = Vec::new(alloc);
    for number in 0..source.plan.nodes() {
        add_node(&mut nodes, node_of(alloc, source, number)?)?;
    }
    Ok(nodes)
}

// One node more.
fn add_node(nodes: &mut Vec<Node>, node: Node) -> Result<(), AllocError>
    ensures { OnOk result (nodes.new.items ≡ nodes.old.items ++ node ∷ []) }
{
    nodes.push(node)?;
    Ok(())
}
