//! What the words and the input come to, before anything is written.

ghost use Rattle.std.specs.Prelude.{◌≡◌, ◌≤◌, map, string_bytes, length, IfErr, IfOk};
ghost use Rattle.axi_program.specs.Outcome.{check_outcome, document_outcome, input_outcome, plan_outcome, run_outcome};
ghost use Rattle.axi_program.specs.Preparation.{IsPrepared, Stops};
ghost use Rattle.axi_program.specs.Work.{IsWorkOf};
ghost use Rattle.document.specs.Runnable.{IsRunnable};

use crate::outside::read_all::{InputFault, read_all};
use crate::outside::source::Source;
use crate::report::{Report, say};
use crate::status::Stop;
use crate::work::Work;
use axi_beats::NoMemory;
use command_words::{Choice, Task, WordsFault, read_words};
use document::{Document, INPUT_LIMIT, Planned, input_text, read_document, read_planned};
use net_build::Net;
use plain_text::line_buffer::LineBuffer;
use refusals::{Cause, DocFault, Refusal};
use std::alloc::Global;
use trace_judge::judge;

/// Reads the input where the words are taken, and takes all memory that its outcome needs.
///
/// # Errors
///
/// The words are none that the program takes, reading failed, or memory is wanting.
pub fn prepare<S: Source>(alloc: Global, words: &[String], source: &mut S) -> Result<Work, Stop>
    ensures work { IfOk result (IsPrepared (map string_bytes words.now) S.left source.old source.new) }
    ensures stop { IfErr result (Stops (map string_bytes words.now) S.faults source.old source.new) }
    ensures count { S.faults source.old ≤ S.faults source.new }
{
    let choice = match read_words(alloc, words) {
        Ok(choice) => choice,
        Err(WordsFault::Usage) => return Err(Stop::Usage),
        Err(WordsFault::NoMemory) => return Err(Stop::NoMemory),
    };
    match read_all(alloc, source, INPUT_LIMIT) {
        Ok(input) => Ok(work_of_input(alloc, &choice, &input)?),
        Err(InputFault::TooLong) => Ok(say(
            alloc,
            Report::Refused(Refusal::new(Cause::InputTooLong)),
        )?),
        Err(InputFault::ReadFault) => Err(Stop::ReadFault),
        Err(InputFault::NoMemory) => Err(Stop::NoMemory),
    }
}

// What a choice makes of an input.
fn work_of_input(alloc: Global, choice: &Choice, input: &[u8]) -> Result<Work, NoMemory>
    requires { length input.now ≤ INPUT_LIMIT }
    ensures { IfOk result (IsWorkOf (input_outcome choice.now input.now)) }
{
    match choice.task {
        Task::Run => work_of_document(alloc, choice.trace, input),
        Task::Check => work_of_trace(alloc, input),
        Task::Plan => work_of_plan(alloc, input),
    }
}

// What an input comes to that is to be run.
fn work_of_document(alloc: Global, trace: bool, input: &[u8]) -> Result<Work, NoMemory>
    requires { length input.now ≤ INPUT_LIMIT }
    ensures { IfOk result (IsWorkOf (document_outcome trace input.now)) }
{
    match read_document(alloc, input) {
        Ok(document) => work_of_run(alloc, document, trace),
        Err(DocFault::Refused(refusal)) => say(alloc, Report::Refused(refusal)),
        Err(DocFault::NoMemory) => Err(NoMemory),
    }
}

// The run of the network of a document.
fn work_of_run(alloc: Global, document: Document, trace: bool) -> Result<Work, NoMemory>
    requires { IsRunnable (record { nodes = document.plan; items = document.traffic }) }
    ensures { IfOk result (IsWorkOf (run_outcome trace (record { nodes = document.plan; items = document.traffic }))) }
{
    let line = LineBuffer::new(alloc)?;
    let net = Net::build(alloc, document.plan, document.traffic)?;
    Ok(Work::Run { net, line, trace })
}

// What an input comes to that is to be planned.
fn work_of_plan(alloc: Global, input: &[u8]) -> Result<Work, NoMemory>
    ensures { IfOk result (IsWorkOf (plan_outcome input.now)) }
{
    match read_planned(alloc, input) {
        Ok(Planned { plan, bound }) => {
            let line = LineBuffer::new(alloc)?;
            Ok(Work::Plan { plan, bound, line })
        }
        Err(DocFault::Refused(refusal)) => say(alloc, Report::Refused(refusal)),
        Err(DocFault::NoMemory) => Err(NoMemory),
    }
}

// What an input comes to that is to be judged as a trace.
fn work_of_trace(alloc: Global, input: &[u8]) -> Result<Work, NoMemory>
    requires { length input.now ≤ INPUT_LIMIT }
    ensures { IfOk result (IsWorkOf (check_outcome input.now)) }
{
    match input_text(input) {
        Ok(text) => {
            let verdict = judge(alloc, text)?;
            say(alloc, Report::of_verdict(verdict))
        }
        Err(refusal) => say(alloc, Report::Refused(refusal)),
    }
}
