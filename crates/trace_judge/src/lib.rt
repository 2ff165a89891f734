//! A whole trace is judged: whether each line is a trace line in its place, and what the ports of the trace break
//! first.
//!
//! The verdict is a definition over the lines of the text and the histories that they show, round by round. The judge
//! reads the lines once, keeps for each link what is outstanding, and answers that verdict. It takes a row of rounds in
//! which nothing is offered as one round, so that what it costs follows the lines, whatever the numbers of the rounds.
//! `docs/FORMAT.md` tells what a trace line is, and `docs/PORT_RULES.md` the rules.
#![tactic(auto)]

mod entries;
mod faults;
mod known;
mod link_judge;
mod link_state;
mod table;
mod trace;
mod verdict;

pub use known::{known_verdicts, quiet_rounds_are_one, verdicts_are_meant};
pub use trace::judge;
pub use verdict::{TraceFault, Verdict};
