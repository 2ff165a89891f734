//! Which nodes a round calls: all but those that only pass beats on and to which no link offers one.

ghost use Rattle.std.specs.Prelude.{◌≡◌, ◌<◌, ◌^◌, ◌++◌, ◌∷◌, [], ℕ, IfOk, OnOk, length, map};
ghost use Rattle.axi_link.specs.LinkWords.{link_of};
ghost use Rattle.net_kinds.specs.NodeTable.{node_out};
ghost use Rattle.net_model.specs.Network.{net_link};
ghost use Rattle.net_steps.specs.Calls.{AreSeen, HaveEnds, acts, makes_moves, is_noted, offers_answer, offers_of, offers_request, only_passes, noted_too, seen_too};

use axi_beats::NoMemory;
use axi_link::{Link, Out};
use net_kinds::Node;
use net_model::NetLink;
use node_core::Step;
use std::alloc::{AllocError, Global};

/// Whether a link offers its lower node a beat, and its upper one. It is kept of each link, so that a
/// round asks no queue on which nothing moves.
#[derive(Clone, Copy)]
pub(crate) struct Offers {
    pub request: bool,
    pub answer: bool,
}

/// What a link offers.
pub(crate) fn offers_of(link: &Link) -> Offers
    ensures { result ≡ offers_of link.now }
{
    Offers {
        request: offers_request(link),
        answer: offers_answer(link),
    }
}

/// What each link offers.
pub(crate) fn offers_of_each(alloc: Global, queues: &[Link]) -> Result<Vec<Offers>, AllocError>
    ensures { IfOk result (λ offers. offers.items ≡ map offers_of queues.now) }
{
    let mut offers = Vec::new(alloc);
    for queue in queues {
        offers.push(offers_of(queue))?;
    }
    Ok(offers)
}

/// Notes to which nodes the links offer a beat, in place of what is noted. `seen` has a place for each
/// node.
pub(crate) fn see_each(seen: &mut [bool], links: &[NetLink], offers: &[Offers])
    requires long { length offers.now ≡ length links.now }
    requires few { length offers.now < 2 ^ 32 }
    requires ends { (link : ℕ) → link < length offers.now → HaveEnds links.now (length seen.old) link }
    ensures long { length seen.new ≡ length seen.old }
    ensures seen { AreSeen links.now offers.now (length offers.now) seen.new }
{
    forget(seen);
    for number in 0..offers.len() {
        see(seen, &links[number], offers[number]);
    }
}

// Nothing is noted.
fn forget(seen: &mut [bool])
    ensures { length seen.new ≡ length seen.old }
{
    for flag in seen.iter_mut() {
        *flag = false;
    }
}

// Notes the nodes to which one link offers a beat.
fn see(seen: &mut [bool], link: &NetLink, offers: Offers)
    requires upper { link.now.upper < length seen.old }
    requires lower { link.now.lower < length seen.old }
    ensures { seen.new ≡ seen_too link.now offers seen.old }
{
    note(seen, link.lower, offers.request);
    note(seen, link.upper, offers.answer);
}

// Notes a node where a link offers it a beat.
fn note(seen: &mut [bool], node: u32, offered: bool)
    requires { node < length seen.old }
    ensures { seen.new ≡ noted_too offered node seen.old }
{
    if offered {
        seen[node as usize] = true;
    }
}

// Whether a link offers its lower node a beat.
fn offers_request(link: &Link) -> bool
    ensures { result ≡ offers_request link.now }
{
    link.head_aw().is_some() || link.head_w().is_some() || link.head_ar().is_some()
}

// Whether a link offers its upper node a beat.
fn offers_answer(link: &Link) -> bool
    ensures { result ≡ offers_answer link.now }
{
    link.head_b().is_some() || link.head_r().is_some()
}

/// Whether a node does nothing of itself, only with the beats that its links offer.
pub(crate) fn only_passes(node: &Node) -> bool
    ensures { result ≡ only_passes node.now }
{
    match node {
        Node::Slice(_) => true,
        Node::Mux(_) => true,
        Node::Demux(_) => true,
        Node::Error(_) => false,
        Node::Manager(_) => false,
        Node::Memory(_) => false,
        Node::LiteMemory(_) => false,
        Node::Remap(_) => false,
        Node::Up(_) => false,
        Node::Split(_) => false,
        Node::Lite(_) => false,
    }
}

/// Whether a node chose some move when it decided last.
pub(crate) fn acts(node: &Node) -> bool
    ensures { result ≡ acts node.now }
{
    makes_moves(node.out())
}

// Whether a take or a put is among some moves.
fn makes_moves(out: &Out) -> bool
    ensures { result ≡ makes_moves out.now }
{
    out.aw_take.is_some()
        || out.aw_put.is_some()
        || out.w_take.is_some()
        || out.w_put.is_some()
        || out.b_take.is_some()
        || out.b_put.is_some()
        || out.ar_take.is_some()
        || out.ar_put.is_some()
        || out.r_take.is_some()
        || out.r_put.is_some()
}

/// Of each node, whether it chose some move when it decided last.
pub(crate) fn acting_of(alloc: Global, nodes: &[Node]) -> Result<Vec<bool>, NoMemory>
    ensures { IfOk result (λ acting. acting.items ≡ map acts nodes.now) }
{
    let mut acting = Vec::new(alloc);
    for node in nodes {
        add_flag(&mut acting, acts(node))?;
    }
    Ok(acting)
}

// One flag more.
fn add_flag(flags: &mut Vec<bool>, flag: bool) -> Result<(), AllocError>
    ensures { OnOk result (flags.new.items ≡ flags.old.items ++ flag ∷ []) }
{
    flags.push(flag)?;
    Ok(())
}
