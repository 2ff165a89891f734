//! What holds of the ports of every network that can be run.

ghost use Rattle.net_ranges.specs.TraceLines.{PlansShowTraceLines, RunsShowTraceLines};

/// Where the numbers of a network's transactions and bytes fit, each of its ports shows in each round of a
/// run what a trace line can tell.
pub fn runs_show_trace_lines()
    ensures { RunsShowTraceLines }
{}

/// So it is of the network of a document that can run, with traffic that suits it.
pub fn plans_show_trace_lines()
    ensures { PlansShowTraceLines }
{}
