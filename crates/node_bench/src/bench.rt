//! `Bench` and `Benched`.

ghost use Rattle.std.specs.Prelude.{◌<◌, ◌≤◌, IsTrue};

use crate::fault::BenchFault;
use crate::moves::move_beats;
use crate::row::Row;
use crate::same::check_moves;
use axi_beats::NoMemory;
use axi_link::{Link, Out};
use node_core::Step;
use std::alloc::Global;

/// A kind of node that a bench can have.
pub trait Benched: Step {
    /// Whether the node may decide in this round on these links.
    fn may_decide(&self, round: u64, links: &[Link]) -> bool
        ensures { IsTrue result → Self.can round links.now self.now };
}

/// A node and links, of which the test is the other end.
#[derive(Drop)]
pub struct Bench<N: Benched + Drop> {
    /// The node.
    pub node: N,
    links: Vec<Link>,
    // How many rounds there were.
    rounds: u64,
}

impl<N: Benched + Drop> Bench<N> {
    /// A bench for a node that hasn't decided yet, with so many empty links of a depth of 1 to 16, which
    /// are numbered from 0.
    ///
    /// # Errors
    ///
    /// `NoMemory` where there is no memory for the links.
    pub fn new(alloc: Global, node: N, links: u32, depth: u8) -> Result<Bench<N>, NoMemory>
        requires least { 0 < depth }
        requires most { depth ≤ 16 }
    {
        let mut all = Vec::new(alloc);
        for _ in 0..links {
            let link = Link::new(alloc, depth)?;
            all.push(link).map_err(|_| NoMemory)?;
        }
        Ok(Bench {
            node,
            links: all,
            rounds: 0,
        })
    }

    /// Plays rounds up to the last row's, in which the node may decide and moves what the rows say.
    /// Rounds are counted from 1 over all calls; rows are in order of their rounds.
    ///
    /// # Errors
    ///
    /// The first thing that isn't so.
    pub fn run(&mut self, rows: &[Row]) -> Result<(), BenchFault> {
        for row in rows {
            self.wait(row.round)?;
            self.play(&row.offered, &row.moved)?;
        }
        Ok(())
    }

    /// Plays the rounds before this one, in which the node moves nothing.
    fn wait(&mut self, round: u64) -> Result<(), BenchFault> {
        if self.rounds >= round {
            return Err(BenchFault::RoundIsOver(round));
        }
        let quiet = Out::default();
        for _ in self.rounds + 1..round {
            self.play(&quiet, &quiet)?;
        }
        Ok(())
    }

    /// Plays the next round.
    fn play(&mut self, offered: &Out, moved: &Out) -> Result<(), BenchFault> {
        move_beats(&mut self.links, offered)?;
        if self.rounds == u64::MAX {
            return Err(BenchFault::RoundIsOver(self.rounds));
        }
        self.rounds += 1;
        if !self.node.may_decide(self.rounds, &self.links) {
            return Err(BenchFault::MayNotDecide(self.rounds));
        }
        self.node.decide(self.rounds, &self.links);
        check_moves(self.rounds, self.node.out(), moved)?;
        move_beats(&mut self.links, self.node.out())
    }
}
