//! The links above and below the nodes of a plan.

ghost use Rattle.std.specs.Prelude.{◌≡◌, ◌<◌, ◌++◌, ◌∷◌, ℕ, [], IfOk, OnOk, length, slice_index_or, slice_set};
ghost use Rattle.elaborate.specs.Plan.{plan_links};
ghost use Rattle.net_build.specs.Linked.{AreAbove, AreBelow};
ghost use Rattle.node_graph.specs.Simple.{lists_in};

use elaborate::Plan;
use std::alloc::{AllocError, Global};

/// Of each plan node the links above it, upwards.
pub(crate) fn links_above(alloc: Global, plan: &Plan) -> Result<Vec<Vec<u32>>, AllocError>
    ensures { IfOk result (λ lists. AreAbove plan.now (length (plan_links plan.now)) (lists_in lists.items)) }
{
    let mut lists = empty_lists(alloc, plan.nodes())?;
    for link in 0..plan.links() {
        add_link(&mut lists, plan.ends(link).1, link)?;
    }
    Ok(lists)
}

/// Of each plan node the links below it, upwards.
pub(crate) fn links_below(alloc: Global, plan: &Plan) -> Result<Vec<Vec<u32>>, AllocError>
    ensures { IfOk result (λ lists. AreBelow plan.now (length (plan_links plan.now)) (lists_in lists.items)) }
{
    let mut lists = empty_lists(alloc, plan.nodes())?;
    for link in 0..plan.links() {
        add_link(&mut lists, plan.ends(link).0, link)?;
    }
    Ok(lists)
}

// So many empty lists.
fn empty_lists(alloc: Global, count: u32) -> Result<Vec<Vec<u32>>, AllocError>
    ensures long { IfOk result (λ lists. length (lists_in lists.items) ≡ count) }
    ensures empty { IfOk result (λ lists. (node : ℕ) → slice_index_or (lists_in lists.items) node [] ≡ []) }
{
    let mut lists = Vec::new(alloc);
    for _node in 0..count {
        lists.push(Vec::new(alloc))?;
    }
    Ok(lists)
}

// Puts a link at the end of the list of a node.
fn add_link(lists: &mut [Vec<u32>], node: u32, link: u32) -> Result<(), AllocError>
    requires { node < length lists.old }
    ensures { OnOk result (lists_in lists.new ≡ slice_set (lists_in lists.old) node (slice_index_or (lists_in lists.old) node [] ++ link ∷ [])) }
{
    lists[node as usize].push(link)?;
    Ok(())
}
