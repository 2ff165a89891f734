//! What the program says in one line: a refusal, or the verdict on a trace.

ghost use Rattle.std.specs.Prelude.{◌≡◌, IfOk};
ghost use Rattle.axi_program.specs.Outcome.{ending_of, outcome_of, text_of};
ghost use Rattle.axi_program.specs.Report.{report_outcome};
ghost use Rattle.axi_program.specs.Work.{IsWorkOf};

use crate::status::Ending;
use crate::texts::{render_broken, render_legal, render_refusal};
use crate::work::Work;
use axi_beats::NoMemory;
use plain_text::line_buffer::LineBuffer;
use refusals::{Cause, Refusal};
use std::alloc::Global;
use trace_judge::{TraceFault, Verdict};

/// What is said in one line.
#[derive(Debug, Clone, Copy, PartialEq, Eq)]
pub enum Report {
    /// Why the input is refused.
    Refused(Refusal),
    /// Every port of a trace keeps the rules; the number of its lines.
    Legal(u32),
    /// The first fault of a trace.
    Broken(TraceFault),
}

impl Report {
    /// What is said of a trace with this verdict.
    pub fn of_verdict(verdict: Verdict) -> Report
        ensures { report_outcome result ≡ outcome_of verdict }
    {
        match verdict {
            Verdict::Legal { lines } => Report::Legal(lines),
            Verdict::Broken(fault) => Report::Broken(fault),
            Verdict::BadTraceLine { line } => Report::Refused(Refusal::at(
                Cause::BadTraceLine,
                line,
            )),
        }
    }

    // Writes its line.
    fn render(self, line: &mut LineBuffer)
        ensures { line.new ≡ text_of (report_outcome self) }
    {
        match self {
            Report::Refused(refusal) => render_refusal(line, &refusal),
            Report::Legal(lines) => render_legal(line, lines),
            Report::Broken(fault) => render_broken(line, &fault),
        }
    }

    // How the program ends once it is said.
    fn ending(self) -> Ending
        ensures { result ≡ ending_of (report_outcome self) }
    {
        match self {
            Report::Refused(refusal) => Ending::Refused(refusal),
            Report::Legal(_) => Ending::Done,
            Report::Broken(fault) => Ending::Broken(fault),
        }
    }
}

/// The work of saying a report.
///
/// # Errors
///
/// Memory is wanting.
pub fn say(alloc: Global, report: Report) -> Result<Work, NoMemory>
    ensures { IfOk result (IsWorkOf (report_outcome report)) }
{
    let mut line = LineBuffer::new(alloc)?;
    report.render(&mut line);
    Ok(Work::Say {
        line,
        ending: report.ending(),
    })
}
