//! A plan, with the links above and below each of its nodes.

ghost use Rattle.std.specs.Prelude.{◌≡◌, ◌≤◌, ◌<◌, IfOk, length, slice_index_or};
ghost use Rattle.elaborate.specs.Plan.{plan_link_at, plan_links, plan_node_at, plan_nodes};
ghost use Rattle.net_opening.specs.PlanLinks.{link_into, link_out_of, links_into, links_out_of};

use crate::ends::{links_above, links_below};
use axi_history::PortKind;
use elaborate::{Part, Plan};
use std::alloc::{AllocError, Global};
use std::marker::Model;
use topology::Wiring;

/// A plan that tells which links are above a node and below it without a search. A clause sees it as its
/// plan.
#[derive(Drop)]
pub(crate) struct LinkedPlan<'a> {
    plan: &'a Plan,
    // Of each plan node the links above it and those below it, upwards.
    above: Vec<Vec<u32>>,
    below: Vec<Vec<u32>>,
}

impl<'a> Model for LinkedPlan<'a> {
    ghost use Rattle.std.specs.Prelude.{List};
    ghost use Rattle.topology.specs.Document.{DocumentNode};
    ghost use Rattle.net_build.specs.Linked.{IsLinked};

    ghost Value = { List DocumentNode };

    ghost view = { λ linked. linked.plan.now };

    ghost invariant = { IsLinked };
}

impl<'a> LinkedPlan<'a> {
    /// A plan with its links. Time is linear in the numbers of nodes and links.
    pub(crate) fn new(alloc: Global, plan: &'a Plan) -> Result<LinkedPlan<'a>, AllocError>
        ensures { IfOk result (λ linked. linked ≡ plan.now) }
    {
        let above = links_above(alloc, plan)?;
        let below = links_below(alloc, plan)?;
        Ok(LinkedPlan { plan, above, below })
    }

    /// The document's nodes.
    pub(crate) fn wiring(&self) -> &Wiring
        ensures { result.now ≡ self.now }
    {
        self.plan.wiring()
    }

    /// The number of plan nodes.
    pub(crate) fn nodes(&self) -> u32
        ensures { result ≡ length (plan_nodes self.now) }
    {
        self.plan.nodes()
    }

    /// What a plan node is.
    pub(crate) fn part(&self, node: u32) -> Part
        requires { node < length (plan_nodes self.now) }
        ensures { result ≡ (plan_node_at self.now node).part }
    {
        self.plan.part(node)
    }

    /// The document node that it comes from.
    pub(crate) fn document(&self, node: u32) -> u32
        requires { node < length (plan_nodes self.now) }
        ensures document { result ≡ (plan_node_at self.now node).document }
        ensures known { result < length self.now }
    {
        self.plan.document(node)
    }

    /// The protocol of a link, and the bytes of its bus.
    pub(crate) fn kind(&self, link: u32) -> PortKind
        requires { link < length (plan_links self.now) }
        ensures { result ≡ record { lite = (plan_link_at self.now link).link.lite; bus = (plan_link_at self.now link).link.bus } }
    {
        self.plan.kind(link)
    }

    /// The width of the IDs of a link, in bits.
    pub(crate) fn id_width(&self, link: u32) -> u8
        requires { link < length (plan_links self.now) }
        ensures { result ≡ (plan_link_at self.now link).link.id_width }
    {
        self.plan.id_width(link)
    }

    /// The links above a plan node, upwards.
    pub(crate) fn links_into(&self, node: u32) -> &[u32]
        requires { node < length (plan_nodes self.now) }
        ensures { result.now ≡ links_into self.now node }
    {
        &self.above[node as usize]
    }

    /// The links below it, upwards.
    pub(crate) fn links_out_of(&self, node: u32) -> &[u32]
        requires { node < length (plan_nodes self.now) }
        ensures { result.now ≡ links_out_of self.now node }
    {
        &self.below[node as usize]
    }

    /// The first link above it, or 0 where there is none.
    pub(crate) fn link_into(&self, node: u32) -> u32
        requires { node < length (plan_nodes self.now) }
        ensures { result ≡ link_into self.now node }
    {
        first_of(self.links_into(node))
    }

    /// The first link below it, or 0 where there is none.
    pub(crate) fn link_out_of(&self, node: u32) -> u32
        requires { node < length (plan_nodes self.now) }
        ensures { result ≡ link_out_of self.now node }
    {
        first_of(self.links_out_of(node))
    }
}

// The first of some numbers, or 0.
fn first_of(numbers: &[u32]) -> u32
    ensures { result ≡ slice_index_or numbers.now 0 0 }
{
    match numbers.first() {
        Some(first) => *first,
        None => 0,
    }
}
