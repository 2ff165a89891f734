//! What is kept of one link of a trace: its port, and its judge.
ghost use Rattle.std.specs.Prelude.{◌≡◌, ◌<◌, ◌≤◌, ℕ, List, None, Some, IfOk, OnOk};
ghost use Rattle.std.specs.List.{find};
ghost use Rattle.axi_beats.specs.Bus.{IsBusWidth};
ghost use Rattle.axi_history.specs.declared.port.PortRound.{PortRound as Round};
ghost use Rattle.port_rules.specs.StandsFor.{HasSmallAddresses};
ghost use Rattle.trace_judge.specs.Entries.{HasTaken};
ghost use Rattle.trace_judge.specs.Follows.{CanGoOn, Follows, HasJudgedTo, TellsOf};
ghost use Rattle.trace_judge.specs.Histories.{greatest_round, is_of_link};

use crate::link_judge::{LinkFault, LinkJudge};
use axi_beats::NoMemory;
use axi_history::{PortKind, PortRound};
use std::alloc::Global;

/// A link of a trace.
#[derive(Drop)]
pub(crate) struct LinkState {
    pub(crate) port: PortKind,
    pub(crate) judge: LinkJudge,
}

impl LinkState {
    /// A link of which no line was given, with a port of this kind.
    pub(crate) fn new(alloc: Global, port: PortKind) -> LinkState
        requires bus { IsBusWidth port.bus }
        ensures port { result.port ≡ port }
        ensures rounds { HasJudgedTo result.judge 0 }
        ensures serves { CanGoOn result.judge port }
        ensures follows { (lines : List Round) (link : ℕ) → find (is_of_link link) lines ≡ None →
            Follows result.judge port lines link }
    {
        LinkState {
            port,
            judge: LinkJudge::new(alloc, port),
        }
    }

    /// Takes the next line of the link, of this number. The checker is given at most two rounds for it: the row of rounds
    /// without a line before it, and its own. Without memory the link is lost.
    pub(crate) fn take_line(&mut self, r: &PortRound, line: u32) -> Result<(), NoMemory>
        requires kind { r.now.kind ≡ self.old.port }
        requires serves { CanGoOn self.old.judge self.old.port }
        requires small { HasSmallAddresses r.now }
        requires first { 1 ≤ r.now.round }
        ensures { OnOk result (HasTaken (Some self.old) (Some self.new) line r.now) }
    {
        self.judge.pass(self.port, r.round - 1)?;
        self.judge.next(r, line)?;
        Ok(())
    }

    /// What the link breaks first up to the last round of the trace.
    pub(crate) fn fault(self, last: u64) -> Result<Option<LinkFault>, NoMemory>
        requires serves { CanGoOn self.judge self.port }
        ensures tells { IfOk result (λ fault. (lines : List Round) (link : ℕ) → greatest_round lines ≡ last →
            Follows self.judge self.port lines link → TellsOf fault self.port lines link) }
    {
        let LinkState { port, mut judge } = self;
        judge.pass(port, last)?;
        Ok(judge.fault)
    }
}
