//! The two phases of a round, over slices of nodes and of links.

ghost use Rattle.std.specs.Prelude.{◌≡◌, ◌+◌, ◌<◌, ◌≤◌, ◌^◌, ◌||◌, All, false, length, map, not, true};
ghost use Rattle.axi_link.specs.Moves.{CanMove, link_after};
ghost use Rattle.net_kinds.specs.NodeKind.{node_view};
ghost use Rattle.net_kinds.specs.NodeTable.{CanNode, node_done, node_table};
ghost use Rattle.net_model.specs.Network.{CanMoveQueue, moves_at, queue_moved};
ghost use Rattle.net_steps.specs.Calls.{UncalledStay, acts, offers_of, only_passes};
ghost use Rattle.net_steps.specs.Unfinished.{one_unless, unfinished_in};
ghost use Rattle.plain_lists.specs.Numbered.{AllNumbered, numbered};

use crate::calls::{Offers, acts, offers_of, only_passes};
use axi_link::Link;
use net_kinds::Node;
use net_model::NetLink;
use node_core::Step;

/// Phase one of round `round`, from 1: each node decides, on the links as they stand. A node that isn't
/// called is passed over, as its table changes nothing. Returns how many nodes still wait for answers.
#[tactic(auto, using(std::proofs::lemmas::List::Edits::map_over_more))]
pub fn decide_each(
    nodes: &mut [Node],
    acting: &mut [bool],
    seen: &[bool],
    round: u64,
    queues: &[Link],
) -> u32
    requires few { length nodes.old < 2 ^ 32 }
    requires ready { All (CanNode round queues.now) nodes.old }
    requires acting { acting.old ≡ map acts nodes.old }
    requires seen { length seen.now ≡ length nodes.old }
    requires others { UncalledStay round queues.now seen.now nodes.old }
    ensures nodes { nodes.new ≡ map (node_table round queues.now) nodes.old }
    ensures acting { acting.new ≡ map acts nodes.new }
    ensures unfinished { result ≡ unfinished_in nodes.new }
{
    let mut unfinished = 0;
    let mut place: usize = 0;
    for node in nodes.iter_mut() {
        let called = is_called(seen[place], acting[place], node);
        unfinished += decide_where(called, node, round, queues);
        acting[place] = acts_where(called, node);
        place += 1;
    }
    unfinished
}

/// One node decides, where it is called. Returns 1 where it still waits for answers, else 0.
fn decide_where(called: bool, node: &mut Node, round: u64, queues: &[Link]) -> u32
    requires ready { CanNode round queues.now node.old }
    requires stays { called ≡ false → node_table round queues.now node.old ≡ node.old }
    requires done { called ≡ false → node_done node.old ≡ true }
    ensures node { node.new ≡ node_table round queues.now node.old }
    ensures unfinished { result ≡ one_unless (node_done node.new) }
{
    if called {
        node.decide(round, queues);
        one_unless_done(node)
    } else {
        0
    }
}

/// Whether a node is called: a link offers it a beat, it chose moves in the round before, or it may do
/// something of itself.
fn is_called(sees: bool, acting: bool, node: &Node) -> bool
    ensures { result ≡ (sees || acting || not (only_passes node.now)) }
{
    sees || acting || !only_passes(node)
}

/// Whether a node acts, which it does nowhere but where it is called.
fn acts_where(called: bool, node: &Node) -> bool
    requires { called ≡ false → acts node.now ≡ false }
    ensures { result ≡ acts node.now }
{
    called && acts(node)
}

/// 1 where a node waits for answers, else 0.
fn one_unless_done(node: &Node) -> u32
    ensures { result ≡ one_unless (node_done node.now) }
{
    if node.done() { 0 } else { 1 }
}

/// How many of these nodes wait for answers.
pub fn count_unfinished(nodes: &[Node]) -> u32
    requires { length nodes.now < 2 ^ 32 }
    ensures { result ≡ unfinished_in nodes.now }
{
    let mut unfinished = 0;
    for node in nodes {
        unfinished += one_unless_done(node);
    }
    unfinished
}

/// Phase two: each link makes the moves of its two nodes, and what it offers then is kept. The first of
/// `queues` is that of link number `first`. A link is passed over where neither of its nodes acts.
pub(crate) fn commit_each(
    queues: &mut [Link],
    offers: &mut [Offers],
    first: u32,
    links: &[NetLink],
    nodes: &[Node],
    acting: &[bool],
)
    requires acting { acting.now ≡ map acts nodes.now }
    requires offers { offers.old ≡ map offers_of queues.old }
    requires numbers { first + length queues.old < 2 ^ 32 }
    requires ready { AllNumbered (CanMoveQueue links.now (map node_view nodes.now)) first queues.old }
    ensures queues { queues.new ≡ numbered (queue_moved links.now (map node_view nodes.now)) first queues.old }
    ensures offers { offers.new ≡ map offers_of queues.new }
{
    let mut number = first;
    let mut place: usize = 0;
    for queue in queues.iter_mut() {
        commit_one(queue, &mut offers[place], number, links, nodes, acting);
        number += 1;
        place += 1;
    }
}

/// The moves on one link, where one of its nodes acts.
fn commit_one(
    queue: &mut Link,
    offers: &mut Offers,
    number: u32,
    links: &[NetLink],
    nodes: &[Node],
    acting: &[bool],
)
    requires acting { acting.now ≡ map acts nodes.now }
    requires offers { offers.old ≡ offers_of queue.old }
    requires ready { CanMoveQueue links.now (map node_view nodes.now) number queue.old }
    ensures queue { queue.new ≡ queue_moved links.now (map node_view nodes.now) number queue.old }
    ensures offers { offers.new ≡ offers_of queue.new }
{
    let link = &links[number as usize];
    if acting[link.upper as usize] || acting[link.lower as usize] {
        move_on(queue, number, link, nodes);
        *offers = offers_of(queue);
    }
}

/// The moves of the two nodes of one link.
fn move_on(queue: &mut Link, number: u32, link: &NetLink, nodes: &[Node])
    requires upper { link.now.upper < length nodes.now }
    requires lower { link.now.lower < length nodes.now }
    requires ready { CanMove number queue.old (moves_at (map node_view nodes.now) link.now.upper) (moves_at (map node_view nodes.now) link.now.lower) }
    ensures { queue.new ≡ link_after number queue.old (moves_at (map node_view nodes.now) link.now.upper) (moves_at (map node_view nodes.now) link.now.lower) }
{
    let above = &nodes[link.upper as usize];
    let below = &nodes[link.lower as usize];
    queue.commit(number, above.out(), below.out());
}
