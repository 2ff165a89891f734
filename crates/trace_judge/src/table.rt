//! What is kept of a trace while its lines are read: a place for each link up to the greatest one, and the last line.
ghost use Rattle.std.specs.Prelude.{◌≡◌, ◌<◌, ◌+◌, ◌∷◌, ◌++◌, ◌^◌, [], true, List, Some, option_map, if◌then◌else◌, IfOk, OnOk};
ghost use Rattle.std.specs.List.{list_all};
ghost use Rattle.axi_history.specs.declared.port.PortKind.{PortKind as Kind};
ghost use Rattle.axi_history.specs.declared.port.PortRound.{PortRound as Round};
ghost use Rattle.trace_text.specs.Ranges.{IsTraceRound};
ghost use Rattle.trace_text.specs.Reading.{trace_round_of};
ghost use Rattle.trace_judge.specs.Lines.{agrees_with, comes_after, is_same_port, may_follow, taken_after};
ghost use Rattle.trace_judge.specs.Table.{TableStands, TakesLine, link_entry, line_place};

use crate::entries::{add_to_link, grow, link_entry};
use crate::link_state::LinkState;
use axi_beats::NoMemory;
use axi_history::{PortKind, PortRound};
use std::alloc::Global;
use trace_text::read_round;

/// What is kept of the lines of a trace.
#[derive(Drop)]
pub(crate) struct TraceTable {
    /// What is kept of each link up to the greatest one.
    pub(crate) links: Vec<Option<LinkState>>,
    /// How many lines were taken.
    pub(crate) lines: u32,
    /// The round and the link of the last one.
    pub(crate) last: Option<(u64, u32)>,
}

impl TraceTable {
    /// The table of no line.
    pub(crate) fn new(alloc: Global) -> TraceTable
        ensures { TableStands result [] }
    {
        TraceTable {
            links: Vec::new(alloc),
            lines: 0,
            last: None,
        }
    }

    /// Takes a line, or answers that it is refused. What the line shows is written into the round that is lent. A trace has fewer than 2^25 lines, as it has at most 2^24 bytes;
    /// with two rounds a line no checker comes near its 2^31 rounds.
    pub(crate) fn take_line(
        &mut self,
        alloc: Global,
        r: &mut PortRound,
        line: &str,
    ) -> Result<bool, NoMemory>
        requires stands { (lines : List Round) × TableStands self.old lines }
        requires few { self.old.lines < 2 ^ 25 }
        ensures lines { IfOk result (λ taken. self.new.lines ≡ self.old.lines + (if taken then 1 else 0)) }
        ensures taken { IfOk result (λ taken. (lines : List Round) → TableStands self.old lines →
            TakesLine taken self.new lines (taken_after lines (trace_round_of line.now))) }
    {
        if read_round(r, line) {
            self.take_round(alloc, r)
        } else {
            Ok(false)
        }
    }

    /// Takes what a trace line shows, or answers that it may not follow the lines before it.
    fn take_round(&mut self, alloc: Global, r: &PortRound) -> Result<bool, NoMemory>
        requires ranges { IsTraceRound r.now }
        requires stands { (lines : List Round) × TableStands self.old lines }
        requires few { self.old.lines < 2 ^ 25 }
        ensures lines { IfOk result (λ taken. self.new.lines ≡ self.old.lines + (if taken then 1 else 0)) }
        ensures taken { IfOk result (λ taken. (lines : List Round) → TableStands self.old lines →
            TakesLine taken self.new lines (taken_after lines (Some r.now))) }
    {
        if !self.may_follow(r) {
            return Ok(false);
        }
        self.add(alloc, r)?;
        Ok(true)
    }

    /// Whether what a line shows may follow the lines before it.
    fn may_follow(&self, r: &PortRound) -> bool
        ensures { (lines : List Round) → TableStands self.now lines → result ≡ may_follow lines r.now }
    {
        comes_after(self.last, r) && self.keeps_port(r)
    }

    /// Whether the line shows the port of its link.
    fn keeps_port(&self, r: &PortRound) -> bool
        ensures { (lines : List Round) → TableStands self.now lines → result ≡ list_all (agrees_with r.now) lines }
    {
        match link_entry(&self.links, r.link) {
            Some(state) => is_same_port(state.port, r.kind),
            None => true,
        }
    }

    /// Adds a line that may follow.
    fn add(&mut self, alloc: Global, r: &PortRound) -> Result<(), NoMemory>
        requires ranges { IsTraceRound r.now }
        requires stands { (lines : List Round) × TableStands self.old lines × (may_follow lines r.now ≡ true) }
        requires few { self.old.lines < 2 ^ 25 }
        ensures lines { OnOk result (self.new.lines ≡ self.old.lines + 1) }
        ensures stands { OnOk result ((lines : List Round) → TableStands self.old lines →
            may_follow lines r.now ≡ true → TableStands self.new (lines ++ r.now ∷ [])) }
    {
        let line = self.lines + 1;
        grow(&mut self.links, r.link)?;
        add_to_link(&mut self.links, alloc, r, line)?;
        self.last = Some((r.round, r.link));
        self.lines = line;
        Ok(())
    }
}

/// Whether what a line shows comes after the last line, whose round and link these are.
fn comes_after(last: Option<(u64, u32)>, r: &PortRound) -> bool
    ensures { (before : _) → last ≡ option_map line_place before → result ≡ comes_after before r.now }
{
    match last {
        Some((round, link)) => round < r.round || (round == r.round && link < r.link),
        None => true,
    }
}

/// Whether two ports are of one kind, with one bus.
fn is_same_port(a: PortKind, b: PortKind) -> bool
    ensures { result ≡ is_same_port a b }
{
    a.lite == b.lite && a.bus == b.bus
}
