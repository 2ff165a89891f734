//! The top call: it takes the words, reads the input, and writes what the input comes to.

ghost use Rattle.std.specs.Prelude.{◌≤◌, map, string_bytes};
ghost use Rattle.axi_program.specs.Call.{IsComplete, ReadsWhole, Tells};
ghost use Rattle.axi_program.specs.Faults.{Rose};
ghost use Rattle.axi_program.specs.Planning.{PlansTellBounds};
ghost use Rattle.axi_program.specs.Right.{DocumentsRunRight};

use crate::outside::gate::Gate;
use crate::outside::sink::Sink;
use crate::outside::source::{Failed, Source};
use crate::preparation::prepare;
use crate::status::Status;
use std::alloc::Global;

/// Does what the words ask for with the input that the source holds, and writes its text to the sink.
///
/// The words are the program's name and a task with options, as [`command_words::read_words`] reads them. `run` reads a
/// document, runs its network and writes the answers, with the trace of the links before them where `--trace=all` is
/// given. `check` reads a trace and judges its ports. `plan` reads a document, and writes the nodes and links of its plan and
/// the bound on the rounds of its run. The gate is for the parts of a phase, which are done one after the
/// other today.
///
/// The order of causes: the words, reading, the refusals in their order, writing. Want of memory may come in place of
/// any, and only before the run and the first write: all memory is taken by [`prepare`], and what is left to do then has
/// no answer for want of it. Of the refusals of a document the codes 1, 2, 3 come first, then 4 to 16, 23, and 17 to 21;
/// of those of a trace 1, 2 and 22. For `plan` a document is refused with the codes up to 16 and 23 alone.
pub fn axinet<S: Source, K: Sink, G: Gate>(
    alloc: Global,
    words: &[String],
    source: &mut S,
    sink: &mut K,
    _gate: &G,
) -> Status
    // What each status says: which cause it had, and what was written. Usage comes only where the words are refused, and
    // each other status but NoMemory only where they are taken.
    ensures tells { Tells (map string_bytes words.now) S.left S.faults K.written K.faults
        source.old source.new sink.old sink.new result }
    ensures reads_whole { ReadsWhole S.left source.old source.new result }

    // The run of every document that isn't refused is right, after any number of rounds: of each transaction
    // the bytes that may be accessed are accessed at the subordinate that its address names, from the first
    // on, each once, in burst order, and all of them where it is answered; it is issued at most once and
    // answered at most once, with the bytes that were read and the defined responses, in order, and in the
    // round that is told; all transactions are answered once the network is finished; and every port keeps
    // the rules of its kind, AXI4 or AXI4-Lite.
    // The run ends after the least number of rounds after which all is answered, which is within its bound,
    // and what a port shows in a round of it is within the ranges of a trace line. `tells` says that what is
    // written is the text of that run.
    ensures right { DocumentsRunRight }

    // The bound that `plan` writes of a document that isn't refused is the one that its run keeps.
    ensures planned { PlansTellBounds }

    // Where no count of faults rises, the status is that of the outcome of words and input, or memory was wanting.
    ensures complete { ¬ Rose (S.faults source.old) (S.faults source.new) → ¬ Rose (K.faults sink.old) (K.faults sink.new) →
        IsComplete (map string_bytes words.now) (S.left source.old) result }

    // The counts of faults never fall.
    ensures reading { S.faults source.old ≤ S.faults source.new }
    ensures writing { K.faults sink.old ≤ K.faults sink.new }
{
    match prepare(alloc, words, source) {
        Ok(work) => match work.finish(sink) {
            Ok(ending) => ending.status(),
            Err(Failed) => Status::WriteFault,
        },
        Err(stop) => stop.status(),
    }
}
