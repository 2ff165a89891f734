//! Laws of the definitions: what a verdict says of each link, traces whose verdict is known, and rounds in which nothing
//! is offered.
ghost use Rattle.trace_judge.specs.KnownVerdicts.{RefusedLines, BrokenRules, LegalTraces};
ghost use Rattle.trace_judge.specs.QuietRounds.{QuietRoundsAreOne};
ghost use Rattle.trace_judge.specs.VerdictLaws.{BrokenTracesTellTheFirst, LegalTracesKeepTheRules};

/// The verdicts on known traces, worked by hand.
pub fn known_verdicts()
    ensures refused { RefusedLines }
    ensures broken { BrokenRules }
    ensures legal { LegalTraces }
{}

/// The law that a row of rounds in which nothing is offered is judged as one such round.
pub fn quiet_rounds_are_one()
    ensures { QuietRoundsAreOne }
{}

/// The laws of verdicts: on a legal trace every link keeps the rules in all rounds, and what is told of a broken one is
/// the first fault.
pub fn verdicts_are_meant()
    ensures legal { LegalTracesKeepTheRules }
    ensures broken { BrokenTracesTellTheFirst }
{}
