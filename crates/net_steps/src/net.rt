//! A network that runs.

ghost use Rattle.std.specs.Prelude.{◌≡◌, ◌<◌, ◌+◌, ◌^◌, ◌++◌, ◌∷◌, [], All, IfOk, Some, false, length, map, slice_get};
ghost use Rattle.axi_link.specs.LinkView.{empty_link};
ghost use Rattle.axi_link.specs.LinkWords.{link_of};
ghost use Rattle.net_kinds.specs.NodeKind.{node_kind};
ghost use Rattle.net_model.specs.Network.{after_commit, after_decide, is_finished};
ghost use Rattle.net_runs.specs.Ports.{port_at};
ghost use Rattle.net_steps.specs.NetView.{CanCommit, CanDecide, HasDepth, decided_in, network_of, opened_net};
ghost use Rattle.net_steps.specs.Offers.{offers_beat as is_offering};

use crate::calls::{Offers, acting_of, offers_of_each, see_each};
use crate::offers::offers_beat;
use crate::phase::{commit_each, count_unfinished, decide_each};
use axi_beats::NoMemory;
use axi_history::{PortKind, PortRound};
use axi_link::Link;
use link_ports::port_of;
use net_kinds::Node;
use net_model::NetLink;
use node_core::Step;
use std::alloc::{AllocError, Global};
use std::marker::Model;

/// A network that runs. All its memory is taken when it is made.
#[derive(Drop)]
pub struct Net {
    nodes: Vec<Node>,
    links: Vec<NetLink>,
    // What waits on each link.
    queues: Vec<Link>,
    rounds: u64,
    decided: bool,
    // How many nodes wait for answers.
    unfinished: u32,
    // Of each node, whether it chose some move when it decided last.
    acting: Vec<bool>,
    // And whether a link offers it a beat in the round in which it decides.
    seen: Vec<bool>,
    // What each link offers.
    offers: Vec<Offers>,
}

impl Model for Net {
    ghost use Rattle.net_steps.specs.NetView.{NetView};

    ghost Value = { NetView };

    ghost use Rattle.net_steps.specs.NetInside.{IsNet, net_view};

    ghost view = { net_view };

    ghost invariant = { IsNet };
}

impl Net {
    /// The network of these nodes and links, each of which has its place as its number, before its first
    /// round. Nothing waits on its links, which have 1 to 16 places a channel.
    ///
    /// # Errors
    ///
    /// Memory is wanting. No later call takes any.
    pub fn new(alloc: Global, nodes: Vec<Node>, links: Vec<NetLink>) -> Result<Net, NoMemory>
        requires few_nodes { length nodes.items < 2 ^ 32 }
        requires few_links { length links.items < 2 ^ 32 }
        requires depths { All HasDepth links.items }
        ensures { IfOk result (λ net. net ≡ opened_net nodes.items links.items) }
    {
        let queues = queues_of(alloc, &links)?;
        let unfinished = count_unfinished(&nodes);
        let acting = acting_of(alloc, &nodes)?;
        let seen = acting_of(alloc, &nodes)?;
        let offers = offers_of_each(alloc, &queues)?;
        Ok(Net {
            nodes,
            links,
            queues,
            rounds: 0,
            decided: false,
            unfinished,
            acting,
            seen,
            offers,
        })
    }

    /// The rounds that were made.
    pub fn rounds(&self) -> u64
        ensures { result ≡ self.now.rounds }
    {
        self.rounds
    }

    /// Whether the nodes have decided in the round after these, whose moves aren't made yet.
    pub fn decided(&self) -> bool
        ensures { result ≡ self.now.decided }
    {
        self.decided
    }

    /// Whether no node waits for an answer.
    pub fn finished(&self) -> bool
        ensures { result ≡ is_finished node_kind (network_of self.now) }
    {
        self.unfinished == 0
    }

    /// How many nodes there are.
    pub fn nodes(&self) -> u32
        ensures { result ≡ length self.now.nodes }
    {
        self.nodes.len() as u32
    }

    /// How many links there are.
    pub fn links(&self) -> u32
        ensures { result ≡ length self.now.links }
    {
        self.links.len() as u32
    }

    /// The node of a number, from 0.
    pub fn node(&self, number: u32) -> &Node
        requires { number < length self.now.nodes }
        ensures { slice_get self.now.nodes number ≡ Some result.now }
    {
        &self.nodes[number as usize]
    }

    /// Whether link `number`, from 0, offers a beat on some channel in the next round. Where it doesn't,
    /// its port has nothing to show.
    pub fn offers(&self, number: u32) -> bool
        requires { number < length self.now.queues }
        ensures { result ≡ is_offering (link_of self.now.queues number) }
    {
        offers_beat(&self.queues[number as usize])
    }

    /// What is seen of link `number`, from 0, in the round in which the nodes have decided: the beats
    /// that its channels offer, and which of them are taken. (Arm IHI 0022, handshake process.)
    pub fn port(&self, number: u32) -> PortRound
        requires ready { CanCommit self.now }
        requires known { number < length self.now.queues }
        ensures { result ≡ port_at (self.now.rounds + 1) (network_of self.now) number }
    {
        let link = &self.links[number as usize];
        let kind = PortKind {
            lite: link.lite,
            bus: link.bus,
        };
        let above = self.nodes[link.upper as usize].out();
        let below = self.nodes[link.lower as usize].out();
        let queue = &self.queues[number as usize];
        port_of(self.rounds + 1, number, kind, queue, above, below)
    }

    /// Phase one of a round: every node decides, on the links as they stand.
    pub fn decide(&mut self)
        requires { CanDecide self.old }
        ensures net { self.new ≡ decided_in self.old }
        ensures network { network_of self.new ≡ after_decide node_kind (self.old.rounds + 1) (network_of self.old) }
    {
        see_each(&mut self.seen, &self.links, &self.offers);
        self.unfinished = decide_each(
            &mut self.nodes,
            &mut self.acting,
            &self.seen,
            self.rounds + 1,
            &self.queues,
        );
        self.decided = true;
    }

    /// Phase two: every link makes the moves that its two nodes decided.
    pub fn commit(&mut self)
        requires { CanCommit self.old }
        ensures network { network_of self.new ≡ after_commit (network_of self.old) }
        ensures rounds { self.new.rounds ≡ self.old.rounds + 1 }
        ensures decided { self.new.decided ≡ false }
    {
        commit_each(
            &mut self.queues,
            &mut self.offers,
            0,
            &self.links,
            &self.nodes,
            &self.acting,
        );
        self.rounds += 1;
        self.decided = false;
    }

    /// One round: every node decides, then every link moves.
    pub fn round(&mut self)
        requires decide { CanDecide self.old }
        requires commit { CanCommit (decided_in self.old) }
        ensures network { network_of self.new ≡ after_commit (after_decide node_kind (self.old.rounds + 1) (network_of self.old)) }
        ensures rounds { self.new.rounds ≡ self.old.rounds + 1 }
        ensures decided { self.new.decided ≡ false }
    {
        self.decide();
        self.commit();
    }
}

/// The queues of links, in order: nothing waits on any.
fn queues_of(alloc: Global, links: &[NetLink]) -> Result<Vec<Link>, NoMemory>
    requires { All HasDepth links.now }
    ensures { IfOk result (λ queues. queues.items ≡ map (λ link. empty_link link.depth) links.now) }
{
    let mut queues = Vec::new(alloc);
    for link in links {
        add_queue(&mut queues, Link::new(alloc, link.depth as u8)?)?;
    }
    Ok(queues)
}

/// One queue more.
fn add_queue(queues: &mut Vec<Link>, queue: Link) -> Result<(), AllocError>
    ensures { IfOk result (λ done. queues.new.items ≡ queues.old.items ++ queue ∷ []) }
{
    queues.push(queue)?;
    Ok(())
}
