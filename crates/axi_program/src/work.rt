//! What is left to do when an input is read and all memory is there: to write a text.

ghost use Rattle.axi_program.specs.Faults.{HasCause};
ghost use Rattle.axi_program.specs.Outcome.{Outcome};
ghost use Rattle.axi_program.specs.Work.{Concludes, IsReady, IsWorkOf};

use crate::outside::sink::Sink;
use crate::outside::source::Failed;
use crate::outside::write_all::write_piece;
use crate::plan::write_plan;
use crate::run::run;
use crate::status::Ending;
use elaborate::Plan;
use net_build::Net;
use plain_text::line_buffer::LineBuffer;

/// What an input comes to, ready to be written. It holds all memory that this takes.
#[derive(Drop)]
pub enum Work {
    /// One line is written.
    Say {
        /// The line with its line feed.
        line: LineBuffer,
        /// How the program ends once it is written.
        ending: Ending,
    },
    /// The text of a plan is written.
    Plan {
        /// The plan.
        plan: Plan,
        /// By how many rounds the run of its traffic is finished at the latest, where that isn't refused.
        bound: Option<u64>,
        /// Room for a line.
        line: LineBuffer,
    },
    /// A network is run, and the text of its run written.
    Run {
        /// The network before its first round.
        net: Net,
        /// Room for a line.
        line: LineBuffer,
        /// Whether the trace of the links stands before the answers.
        trace: bool,
    },
}

impl Work {
    /// Writes the text, and tells how the program ends. This takes no memory, and has no answer for want of it.
    ///
    /// # Errors
    ///
    /// A write failed. What was written is the front of the text.
    pub fn finish<K: Sink>(self, sink: &mut K) -> Result<Ending, Failed>
        requires { IsReady self }
        ensures concludes { (outcome : Outcome) → IsWorkOf outcome self → Concludes K.written outcome sink.old sink.new result }
        ensures cause { HasCause (K.faults sink.old) (K.faults sink.new) result }
    {
        match self {
            Work::Say { line, ending } => {
                write_piece(sink, line.bytes())?;
                Ok(ending)
            }
            Work::Plan { plan, bound, line } => write_plan(&plan, bound, line, sink),
            Work::Run { net, line, trace } => run(net, line, trace, sink),
        }
    }
}
