//! The judge of a whole trace.
ghost use Rattle.std.specs.Prelude.{◌≡◌, ◌≤◌, ◌<◌, ◌^◌, [], List, length, IfOk, OnOk};
ghost use Rattle.axi_history.specs.declared.port.PortRound.{PortRound as Round};
ghost use Rattle.trace_judge.specs.Histories.{first_broken};
ghost use Rattle.trace_judge.specs.Lines.{judged_lines, shown_by};
ghost use Rattle.trace_judge.specs.Reading.{IsRead};
ghost use Rattle.trace_judge.specs.Table.{TableStands, round_of};
ghost use Rattle.trace_judge.specs.Verdicts.{verdict_of, verdict_of_rules};

use crate::faults::first_fault;
use crate::table::TraceTable;
use crate::verdict::Verdict;
use axi_beats::NoMemory;
use axi_history::PortRound;
use plain_text::separator::is_separator;
use std::alloc::Global;

/// The verdict on a trace of at most 16,777,216 bytes, of which the lines before the first line `%%` count, or all
/// lines where there is none. NoMemory says that there was no memory to judge it.
///
/// A text is read once, line by line. For each line the time follows its length and what is outstanding on its link;
/// the memory follows the greatest link and what is outstanding.
pub fn judge(alloc: Global, text: &str) -> Result<Verdict, NoMemory>
    requires short { length text.now ≤ 16777216 }
    ensures verdict { IfOk result (λ verdict. verdict ≡ verdict_of text.now) }
{
    let mut table = TraceTable::new(alloc);
    match read_lines(&mut table, alloc, text)? {
        Some(line) => Ok(Verdict::BadTraceLine { line }),
        None => verdict_on(table),
    }
}

/// Gives the lines of a trace to an empty table, up to the first one that is refused, whose number it answers.
fn read_lines(table: &mut TraceTable, alloc: Global, text: &str) -> Result<Option<u32>, NoMemory>
    requires empty { TableStands table.old [] }
    requires short { length text.now ≤ 16777216 }
    ensures read { IfOk result (λ refused. IsRead refused table.new (shown_by (judged_lines text.now))) }
    ensures few { OnOk result (table.new.lines < 2 ^ 25) }
{
    let mut shown = PortRound::default();
    for line in text.lines() {
        if is_separator(line.as_bytes()) {
            return Ok(None);
        }
        if !table.take_line(alloc, &mut shown, line)? {
            return Ok(Some(table.lines + 1));
        }
    }
    Ok(None)
}

/// The verdict on a trace of which no line was refused.
fn verdict_on(table: TraceTable) -> Result<Verdict, NoMemory>
    requires stands { (lines : List Round) × TableStands table lines }
    requires few { table.lines < 2 ^ 25 }
    ensures verdict { IfOk result (λ verdict. (lines : List Round) → TableStands table lines →
        verdict ≡ verdict_of_rules (length lines) (first_broken lines)) }
{
    let TraceTable { links, lines, last } = table;
    match first_fault(links, last_round(last))? {
        Some(fault) => Ok(Verdict::Broken(fault)),
        None => Ok(Verdict::Legal { lines }),
    }
}

/// The round of the last line, or 0 where there is none.
fn last_round(last: Option<(u64, u32)>) -> u64
    ensures { result ≡ round_of last }
{
    match last {
        Some((round, _)) => round,
        None => 0,
    }
}
