//! What `clap` is told of the program's words.

ghost use Rattle.std.specs.Prelude.{◌≡◌, IfOk, codes, false};
ghost use Rattle.clap.specs.Walk.{rule_of};
ghost use Rattle.clap.specs.Simple.{app_of};
ghost use Rattle.command_words.specs.AxinetCommand.{IsAxinet, PossibleValues, Spell, seed_rule, size_rule, task_names, task_rule, trace_names, trace_rule, workers_rule};

use clap::builder::ValueParser;
use clap::{Arg, Command};
use std::alloc::{AllocError, Global};

// The names of the tasks, and those of the traces that can be asked for.
static TASKS: [&str; 3] = ["run", "check", "plan"];

static TRACES: [&str; 2] = ["none", "all"];

/// The word that names the task.
fn task_arg<'a>(alloc: Global) -> Arg<'a>
    ensures rule { (values : PossibleValues) × Spell values task_names × (rule_of result ≡ task_rule values) }
    ensures local { result.global ≡ false }
{
    Arg::new(alloc, "command")
        .required(true)
        .value_parser(TASKS.as_slice())
}

/// `--workers`: how many threads run the network.
fn workers_arg<'a>(alloc: Global) -> Arg<'a>
    ensures rule { rule_of result ≡ workers_rule }
    ensures local { result.global ≡ false }
{
    Arg::new(alloc, "workers")
        .long("workers")
        .value_parser(ValueParser::unsigned(1, 64))
        .default_value("1")
}

/// `--trace`: whether the trace is written.
fn trace_arg<'a>(alloc: Global) -> Arg<'a>
    ensures rule { (values : PossibleValues) × Spell values trace_names × (rule_of result ≡ trace_rule values) }
    ensures local { result.global ≡ false }
{
    Arg::new(alloc, "trace")
        .long("trace")
        .value_parser(TRACES.as_slice())
        .default_value("none")
}

/// `--seed`: from which number a document is made.
fn seed_arg<'a>(alloc: Global) -> Arg<'a>
    ensures rule { rule_of result ≡ seed_rule }
    ensures local { result.global ≡ false }
{
    Arg::new(alloc, "seed")
        .long("seed")
        .value_parser(ValueParser::unsigned(0, u64::MAX))
        .default_value("0")
}

/// `--size`: how many nodes a document that is made has.
fn size_arg<'a>(alloc: Global) -> Arg<'a>
    ensures rule { rule_of result ≡ size_rule }
    ensures local { result.global ≡ false }
{
    Arg::new(alloc, "size")
        .long("size")
        .value_parser(ValueParser::unsigned(1, 16384))
        .default_value("100")
}

/// The whole command.
pub(crate) fn axinet_command<'a>(alloc: Global) -> Result<Command<'a>, AllocError>
    ensures { IfOk result (λ command. IsAxinet (app_of command)) }
{
    Command::new(alloc, "axinet")
        .arg(task_arg(alloc))?
        .arg(workers_arg(alloc))?
        .arg(trace_arg(alloc))?
        .arg(seed_arg(alloc))?
        .arg(size_arg(alloc))
}
