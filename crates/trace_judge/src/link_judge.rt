//! The judge of one link: it is given what the link shows, round by round, and keeps what is broken first.
//!
//! Rounds in which nothing is offered come in rows that may be very long. A row is given to the checker as one round,
//! its first one: the others break no rule that this one doesn't.
ghost use Rattle.std.specs.Prelude.{◌≡◌, ◌+◌, ◌<◌, ◌≤◌, ◌^◌, ◌∷◌, ◌++◌, [], ℕ, List, max, option_map, IfOk, OnOk, IfSome};
ghost use Rattle.axi_beats.specs.Bus.{IsBusWidth};
ghost use Rattle.axi_history.specs.declared.port.PortRound.{PortRound as Round};
ghost use Rattle.lite_rules.specs.PortFaults.{history_fault};
ghost use Rattle.port_rules.specs.StandsFor.{HasSmallAddresses, StandsFor, checked_port, rounds_of};
ghost use Rattle.trace_judge.specs.Alike.{IsQuiet, SameOffers};
ghost use Rattle.trace_judge.specs.Judged.{IsJudged};

use axi_beats::NoMemory;
use axi_history::{PortKind, PortRound};
use port_rules::{PortChecker, RuleFault};
use std::alloc::Global;

/// What a link breaks first.
#[derive(Clone, Copy, Debug, PartialEq, Eq)]
pub(crate) struct LinkFault {
    /// The number of the line that shows the round, or 0 where none does.
    pub(crate) line: u32,
    /// The round, from 1.
    pub(crate) round: u64,
    /// 1 AW, 2 W, 3 B, 4 AR, 5 R.
    pub(crate) channel: u8,
    /// The rule, from 1 to 12, on AXI4-Lite from 1 to 6.
    pub(crate) rule: u8,
}

/// What is known of the rounds of one link from 1 to `rounds`.
#[derive(Drop)]
pub(crate) struct LinkJudge {
    /// It was given these rounds up to the first broken one, each row of rounds without a line as one round.
    pub(crate) checker: PortChecker,
    pub(crate) rounds: u64,
    pub(crate) fault: Option<LinkFault>,
}

impl LinkJudge {
    /// A judge of a port of this kind, before its first round.
    pub(crate) fn new(alloc: Global, port: PortKind) -> LinkJudge
        requires bus { IsBusWidth port.bus }
        ensures port { checked_port result.checker ≡ port }
        ensures given { rounds_of result.checker ≡ 0 }
        ensures rounds { result.rounds ≡ 0 }
        ensures judged { (shown : ℕ → Round) (number : ℕ → ℕ) →
            IsJudged result.checker result.fault result.rounds shown number }
    {
        LinkJudge {
            checker: PortChecker::new(alloc, port),
            rounds: 0,
            fault: None,
        }
    }

    /// The next round, which the line with this number shows, or no line where it is 0.
    pub(crate) fn next(&mut self, r: &PortRound, line: u32) -> Result<(), NoMemory>
        requires kind { r.now.kind ≡ checked_port self.old.checker }
        requires small { HasSmallAddresses r.now }
        requires few { rounds_of self.old.checker < 2 ^ 31 }
        ensures port { checked_port self.new.checker ≡ checked_port self.old.checker }
        ensures given { rounds_of self.new.checker ≤ rounds_of self.old.checker + 1 }
        ensures rounds { OnOk result (self.new.rounds ≡ r.now.round) }
        ensures judged { OnOk result ((shown : ℕ → Round) (number : ℕ → ℕ) → r.now.round ≡ self.old.rounds + 1 →
            SameOffers (shown r.now.round) r.now → number r.now.round ≡ line →
            IsJudged self.old.checker self.old.fault self.old.rounds shown number →
            IsJudged self.new.checker self.new.fault self.new.rounds shown number) }
    {
        if self.fault.is_none() {
            self.fault = fault_in(&mut self.checker, r, line)?;
        }
        self.rounds = r.round;
        Ok(())
    }

    /// All rounds up to this one, in which nothing is offered.
    pub(crate) fn pass(&mut self, port: PortKind, upto: u64) -> Result<(), NoMemory>
        requires kind { port ≡ checked_port self.old.checker }
        requires few { rounds_of self.old.checker < 2 ^ 31 }
        ensures port { checked_port self.new.checker ≡ checked_port self.old.checker }
        ensures given { rounds_of self.new.checker ≤ rounds_of self.old.checker + 1 }
        ensures rounds { OnOk result (self.new.rounds ≡ max self.old.rounds upto) }
        ensures judged { OnOk result ((shown : ℕ → Round) (number : ℕ → ℕ) →
            ((n : ℕ) → self.old.rounds < n → n ≤ upto → IsQuiet (shown n) × (number n ≡ 0)) →
            IsJudged self.old.checker self.old.fault self.old.rounds shown number →
            IsJudged self.new.checker self.new.fault self.new.rounds shown number) }
    {
        if self.rounds < upto {
            self.next(&quiet_round(port, self.rounds + 1), 0)?;
            self.rounds = upto;
        }
        Ok(())
    }
}

/// A round in which nothing is offered.
fn quiet_round(kind: PortKind, round: u64) -> PortRound
    ensures kind { result.kind ≡ kind }
    ensures round { result.round ≡ round }
    ensures quiet { IsQuiet result }
{
    PortRound {
        round,
        kind,
        ..PortRound::default()
    }
}

/// Gives a checker one more round, and answers what is broken there by a port that has broken nothing yet.
fn fault_in(
    checker: &mut PortChecker,
    r: &PortRound,
    line: u32,
) -> Result<Option<LinkFault>, NoMemory>
    requires kind { r.now.kind ≡ checked_port checker.old }
    requires small { HasSmallAddresses r.now }
    requires few { rounds_of checker.old < 2 ^ 31 }
    ensures port { checked_port checker.new ≡ checked_port checker.old }
    ensures given { rounds_of checker.new ≤ rounds_of checker.old + 1 }
    ensures added { OnOk result ((h : List Round) → StandsFor checker.old h → StandsFor checker.new (h ++ r.now ∷ [])) }
    ensures told { IfOk result (λ fault. (h : List Round) → StandsFor checker.old h →
        history_fault (checked_port checker.old) (h ++ r.now ∷ []) ≡ option_map (λ (f : _). (f.channel, f.rule)) fault) }
    ensures place { IfOk result (λ fault. IfSome fault (λ f. (f.line ≡ line) × (f.round ≡ r.now.round))) }
{
    match checker.round(r) {
        Ok(()) => Ok(None),
        Err(RuleFault::Broken { rule, channel }) => Ok(Some(LinkFault {
            line,
            round: r.round,
            channel,
            rule,
        })),
        Err(RuleFault::NoMemory) => Err(NoMemory),
    }
}
