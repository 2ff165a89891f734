//! The plan of an accepted document. A clause sees a plan as the list of the document's nodes, of which
//! its nodes, links, order and paths are made.

ghost use Rattle.std.specs.Prelude.{◌≡◌, ◌≤◌, ◌<◌, IfOk, IfSome, length, slice_get, slice_index_or, true};
ghost use Rattle.std.specs.Option.{option_and_then};
ghost use Rattle.topology.specs.Document.{is_manager, node_at};
ghost use Rattle.elaborate.specs.Path.{next_part, path_of, port_by_part, plan_order, target_of};
ghost use Rattle.elaborate.specs.Plan.{first_part, plan_link_at, plan_links, plan_node_at, plan_nodes};

use crate::counts::first_of;
use crate::firsts::first_parts;
use crate::link::PlanLink;
use crate::links::plan_links;
use crate::node::NodeParts;
use crate::order::plan_order;
use crate::part::Part;
use crate::parts::plan_nodes;
use crate::regions::port_at_demux;
use axi_history::PortKind;
use std::alloc::{AllocError, Global};
use std::marker::Model;
use topology::Wiring;

/// The plan of a network: its nodes and links by number from 0, beside the document's nodes.
#[derive(Debug, Drop)]
pub struct Plan {
    wiring: Wiring,
    nodes: Vec<NodeParts>,
    links: Vec<PlanLink>,
    firsts: Vec<u32>,
    order: Vec<u32>,
}

impl Model for Plan {
    ghost use Rattle.std.specs.Prelude.{List};
    ghost use Rattle.topology.specs.Document.{DocumentNode};
    ghost use Rattle.elaborate.specs.Inside.{IsPlan};

    ghost Value = { List DocumentNode };

    ghost view = { λ plan. plan.wiring };

    ghost invariant = { λ plan. IsPlan plan.wiring plan.nodes.items plan.links.items plan.firsts.items plan.order.items };
}

/// The plan of a document's nodes, which it keeps.
///
/// # Errors
///
/// There was no memory for it.
pub fn plan_of(alloc: Global, wiring: Wiring) -> Result<Plan, AllocError>
    ensures { IfOk result (λ plan. plan ≡ wiring) }
{
    let firsts = first_parts(alloc, &wiring)?;
    let nodes = plan_nodes(alloc, &wiring, &firsts)?;
    let links = plan_links(alloc, &wiring, &nodes)?;
    let order = plan_order(alloc, &wiring, &nodes)?;
    Ok(Plan {
        wiring,
        nodes,
        links,
        firsts,
        order,
    })
}

impl Plan {
    /// The document's nodes.
    pub fn wiring(&self) -> &Wiring
        ensures { result.now ≡ self.now }
    {
        &self.wiring
    }

    /// The number of plan nodes, at most 1,024.
    pub fn nodes(&self) -> u32
        ensures count { result ≡ length (plan_nodes self.now) }
        ensures few { result ≤ 1024 }
    {
        self.nodes.len() as u32
    }

    /// What a plan node is.
    pub fn part(&self, node: u32) -> Part
        requires { node < length (plan_nodes self.now) }
        ensures { result ≡ (plan_node_at self.now node).part }
    {
        self.node(node).part()
    }

    /// Its name.
    pub fn name(&self, node: u32) -> &str
        requires { node < length (plan_nodes self.now) }
        ensures { result.now ≡ (plan_node_at self.now node).name }
    {
        self.node(node).name()
    }

    /// The document node that it comes from, by its number from 0.
    pub fn document(&self, node: u32) -> u32
        requires { node < length (plan_nodes self.now) }
        ensures document { result ≡ (plan_node_at self.now node).document }
        ensures known { result < length self.now }
    {
        self.node(node).document()
    }

    /// The first plan node that a document node becomes.
    pub fn first(&self, document: u32) -> u32
        requires { document < length self.now }
        ensures { result ≡ first_part self.now document }
    {
        first_of(&self.wiring, &self.firsts, document)
    }

    /// The number of links, at most 4,096. They are numbered by their upper plan node, and then by its
    /// port.
    pub fn links(&self) -> u32
        ensures count { result ≡ length (plan_links self.now) }
        ensures few { result ≤ 4096 }
    {
        self.links.len() as u32
    }

    /// The plan nodes above and below a link.
    pub fn ends(&self, link: u32) -> (u32, u32)
        requires { link < length (plan_links self.now) }
        ensures ends { result ≡ ((plan_link_at self.now link).upper, (plan_link_at self.now link).lower) }
    {
        let link = self.link(link);
        (link.upper, link.lower)
    }

    /// The protocol of a link, and the bytes of its bus.
    pub fn kind(&self, link: u32) -> PortKind
        requires { link < length (plan_links self.now) }
        ensures { result ≡ record { lite = (plan_link_at self.now link).link.lite; bus = (plan_link_at self.now link).link.bus } }
    {
        let link = self.link(link).link;
        PortKind {
            lite: link.lite,
            bus: link.bus,
        }
    }

    /// The width of its IDs, in bits.
    pub fn id_width(&self, link: u32) -> u8
        requires { link < length (plan_links self.now) }
        ensures { result ≡ (plan_link_at self.now link).link.id_width }
    {
        self.link(link).link.id_width
    }

    /// How many beats each of its queues has room for.
    pub fn depth(&self, link: u32) -> u8
        requires { link < length (plan_links self.now) }
        ensures { result ≡ (plan_link_at self.now link).depth }
    {
        self.link(link).depth
    }

    /// The plan node at a place, counted from 0, of the order that leads downwards: the managers first,
    /// and each other node after those above it.
    pub fn order(&self, place: u32) -> u32
        requires { place < length (plan_nodes self.now) }
        ensures node { result ≡ slice_index_or (plan_order self.now) place 0 }
        ensures known { result < length (plan_nodes self.now) }
    {
        self.order[place as usize]
    }

    /// Where the path of an address from a manager ends, and the number of plan nodes on it, both ends
    /// counted, at most 1,024. The manager is a document node.
    pub fn path(&self, manager: u32, addr: u64) -> (u32, u32)
        requires inside { manager < length self.now }
        requires manager { is_manager (node_at self.now manager).kind ≡ true }
        ensures path { result ≡ (target_of self.now manager addr, length (path_of self.now manager addr)) }
        ensures few { result.1 ≤ 1024 }
    {
        let mut node = first_of(&self.wiring, &self.firsts, manager);
        let mut passed = 1;
        for _step in 1..self.nodes() {
            match self.next(node, addr) {
                Some(next) => node = next,
                None => return (node, passed),
            }
            passed += 1;
        }
        (node, passed)
    }

    // The plan node to which a request for an address goes on from one.
    fn next(&self, node: u32, addr: u64) -> Option<u32>
        requires { node < length (plan_nodes self.now) }
        ensures next { result ≡ option_and_then (next_part self.now addr) (slice_get (plan_nodes self.now) node) }
        ensures known { IfSome result (λ next. next < length (plan_nodes self.now)) }
    {
        let part = self.part(node);
        let document = self.document(node);
        let port = self.port(part, document, addr);
        at_port(self.node(node).lower(), port)
    }

    // The port of an address at a part of a document node.
    fn port(&self, part: Part, document: u32, addr: u64) -> u32
        requires { document < length self.now }
        ensures { result ≡ port_by_part self.now addr document part }
    {
        match part {
            Part::Demux => port_at_demux(&self.wiring, document, addr),
            _ => 0,
        }
    }

    // The plan node of this number.
    fn node(&self, node: u32) -> &NodeParts
        requires { node < length (plan_nodes self.now) }
        ensures { result.now ≡ plan_node_at self.now node }
    {
        &self.nodes[node as usize]
    }

    // The link of this number.
    fn link(&self, link: u32) -> PlanLink
        requires { link < length (plan_links self.now) }
        ensures { result ≡ plan_link_at self.now link }
    {
        self.links[link as usize]
    }
}

// What stands at a port, if there is such a port.
fn at_port(lower: &[u32], port: u32) -> Option<u32>
    ensures { result ≡ slice_get lower.now port }
{
    lower.get(port as usize).copied()
}
