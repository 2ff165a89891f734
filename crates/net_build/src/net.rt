//! The network of a plan with its traffic, while it runs.

ghost use Rattle.std.specs.Prelude.{◌≡◌, ◌<◌, ◌≤◌, ◌+◌, ℕ, IfOk, IfSome, false, length, true};
ghost use Rattle.std.specs.Option.{option_copied};
ghost use Rattle.axi_link.specs.LinkWords.{link_of};
ghost use Rattle.elaborate.specs.Plan.{plan_links, plan_nodes};
ghost use Rattle.net_build.specs.NetRun.{new_run, network_of_run};
ghost use Rattle.net_build.specs.Stands.{IsOpened};
ghost use Rattle.net_build.specs.Noted.{IsAnswerTo, answer_of_number, byte_noted};
ghost use Rattle.net_build.specs.Shown.{is_shown};
ghost use Rattle.net_kinds.specs.NodeKind.{node_kind};
ghost use Rattle.net_model.specs.Network.{is_finished};
ghost use Rattle.net_opening.specs.Opening.{opening};
ghost use Rattle.net_opening.specs.PlanLinks.{form_of_link};
ghost use Rattle.net_runs.specs.Ports.{port_at};
ghost use Rattle.net_steps.specs.Offers.{offers_beat};
ghost use Rattle.net_ways.specs.Sound.{IsSound};
ghost use Rattle.plan_traffic.specs.Accepted.{IsTraffic};
ghost use Rattle.plan_traffic.specs.Bound.{round_bound};

use crate::linked::LinkedPlan;
use crate::links::net_links;
use crate::nodes::net_nodes;
use crate::notes::{Note, no_counts, notes_of};
use crate::source::Source;
use crate::targets::targets_of;
use crate::told::{answer_of, byte_of};
use axi_beats::NoMemory;
use axi_history::PortRound;
use elaborate::Plan;
use manager_node::Answer;
use plan_traffic::{Traffic, round_bound};
use std::alloc::Global;
use std::marker::Model;

/// The network of a plan with its traffic, after some rounds. A clause sees it as the document's nodes,
/// the transactions, the rounds that were made and whether the nodes have decided in the next one.
#[derive(Drop)]
pub struct Net {
    plan: Plan,
    traffic: Traffic,
    net: net_steps::Net,
    // Where each transaction is noted, in order of number.
    notes: Vec<Note>,
    bound: u64,
}

impl Model for Net {
    ghost use Rattle.net_build.specs.NetRun.{NetRun};
    ghost use Rattle.net_build.specs.NetInside.{IsRun, net_run};

    ghost Value = { NetRun };

    ghost view = { net_run };

    ghost invariant = { IsRun };
}

impl Net {
    /// The network of a plan with its traffic, before its first round. No later call takes memory.
    ///
    /// # Errors
    ///
    /// Memory is wanting.
    pub fn build(alloc: Global, plan: Plan, traffic: Traffic) -> Result<Net, NoMemory>
        requires traffic { IsTraffic plan traffic }
        requires sound { IsSound node_kind (opening plan traffic) (form_of_link plan) }
        ensures { IfOk result (λ net. net ≡ new_run plan traffic) }
    {
        let net = steps_of(alloc, &plan, &traffic)?;
        let counts = no_counts(alloc, plan.wiring().count() as usize)?;
        let notes = notes_of(alloc, &plan, &traffic, counts)?;
        let bound = round_bound(&plan, &traffic);
        Ok(Net {
            plan,
            traffic,
            net,
            notes,
            bound,
        })
    }

    /// The plan, which the network keeps.
    pub fn plan(&self) -> &Plan
        ensures { result.now ≡ self.now.nodes }
    {
        &self.plan
    }

    /// The transactions, which it keeps too.
    pub fn traffic(&self) -> &Traffic
        ensures items { result.now ≡ self.now.items }
        ensures suits { IsTraffic self.now.nodes self.now.items }
    {
        &self.traffic
    }

    /// The rounds that were made.
    pub fn rounds(&self) -> u64
        ensures { result ≡ self.now.rounds }
    {
        self.net.rounds()
    }

    /// Whether the nodes have decided in the round after these, whose moves aren't made yet.
    pub fn decided(&self) -> bool
        ensures { result ≡ self.now.decided }
    {
        self.net.decided()
    }

    /// Whether no node waits for an answer: all transactions are answered.
    pub fn finished(&self) -> bool
        ensures { result ≡ is_finished node_kind (network_of_run self.now) }
    {
        self.net.finished()
    }

    /// By how many rounds the run is finished at the latest.
    pub fn bound(&self) -> u64
        ensures { result ≡ round_bound self.now.nodes self.now.items }
    {
        self.bound
    }

    /// How many links there are.
    pub fn links(&self) -> u32
        ensures { result ≡ length (plan_links self.now.nodes) }
    {
        self.net.links()
    }

    /// Whether link `number`, from 0, offers a beat on some channel in the next round. Where it doesn't,
    /// its port has nothing to show.
    pub fn offers(&self, number: u32) -> bool
        requires { number < length (plan_links self.now.nodes) }
        ensures offers { result ≡ offers_beat (link_of (network_of_run self.now).queues number) }
        ensures shown { (round : ℕ) → result ≡ is_shown (port_at round (network_of_run self.now) number) }
    {
        self.net.offers(number)
    }

    /// What is seen of link `number`, from 0, in the round in which the nodes have decided: the beats
    /// that its channels offer, and which of them are taken. (Arm IHI 0022, handshake process.)
    pub fn port(&self, number: u32) -> PortRound
        requires decided { self.now.decided ≡ true }
        requires known { number < length (plan_links self.now.nodes) }
        ensures port { result ≡ port_at (self.now.rounds + 1) (network_of_run self.now) number }
        ensures bus { result.kind.bus ≤ 128 }
    {
        self.net.port(number)
    }

    /// The byte of an address at plan node `number`, from 0; None where the node is no memory, or where
    /// the address is outside it.
    pub fn byte(&self, number: u32, address: u64) -> Option<u8>
        requires { number < length (plan_nodes self.now.nodes) }
        ensures { result ≡ byte_noted self.now number address }
    {
        byte_of(self.net.node(number), address)
    }

    /// The answer to transaction `number`, from 1; None where it isn't answered.
    pub fn answer(&self, number: u32) -> Option<&Answer>
        requires first { 1 ≤ number }
        requires last { number ≤ length self.now.items }
        ensures answer { option_copied result ≡ answer_of_number self.now number }
        ensures known { IfSome result (λ answer. IsAnswerTo self.now number answer.now) }
    {
        let note = self.notes[number as usize - 1];
        answer_of(self.net.node(note.node), note.place)
    }

    /// Phase one of a round: every node decides, on the links as they stand.
    pub fn decide(&mut self)
        requires undecided { self.old.decided ≡ false }
        requires room { self.old.rounds < round_bound self.old.nodes self.old.items }
        ensures { self.new ≡ record self.old { decided = true } }
    {
        self.net.decide();
    }

    /// Phase two: every link makes the moves that its two nodes decided.
    pub fn commit(&mut self)
        requires { self.old.decided ≡ true }
        ensures { self.new ≡ record self.old { rounds = self.old.rounds + 1; decided = false } }
    {
        self.net.commit();
    }
}

// The nodes and the links of a plan, before the first round.
fn steps_of(alloc: Global, plan: &Plan, traffic: &Traffic) -> Result<net_steps::Net, NoMemory>
    requires traffic { IsTraffic plan.now traffic.now }
    requires sound { IsSound node_kind (opening plan.now traffic.now) (form_of_link plan.now) }
    ensures { IfOk result (λ net. IsOpened plan.now traffic.now net) }
{
    // The document is accepted, and the keys of its nodes are within their limits.
    let _ = plan.wiring().count();
    let targets = targets_of(alloc, plan, traffic)?;
    let linked = LinkedPlan::new(alloc, plan)?;
    let source = Source {
        plan: &linked,
        traffic,
        targets: &targets,
    };
    let nodes = net_nodes(alloc, &source)?;
    let links = net_links(alloc, plan)?;
    net_steps::Net::new(alloc, nodes, links)
}
