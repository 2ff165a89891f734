//! The first fault of a trace, from what its links break.
ghost use Rattle.std.specs.Prelude.{◌≡◌, ◌≤◌, ◌<◌, ℕ, List, None, length, IfOk};
ghost use Rattle.axi_history.specs.declared.port.PortRound.{PortRound as Round};
ghost use Rattle.trace_judge.specs.Entries.{EntryStands};
ghost use Rattle.trace_judge.specs.Faults.{EntryServes, IsFaultOf, with_link};
ghost use Rattle.trace_judge.specs.Histories.{first_broken, greatest_round, link_count};
ghost use Rattle.trace_judge.specs.Table.{link_entry};

use crate::link_judge::LinkFault;
use crate::link_state::LinkState;
use crate::verdict::TraceFault;
use axi_beats::NoMemory;

/// What is broken in the first round in which something is, on the least link. Every link is judged up to round `last`,
/// the last one of the trace, also where its own lines end earlier.
pub(crate) fn first_fault(
    links: Vec<Option<LinkState>>,
    last: u64,
) -> Result<Option<TraceFault>, NoMemory>
    requires size { length links.items ≤ 4096 }
    requires serves { (link : ℕ) → EntryServes (link_entry links.items link) }
    ensures first { IfOk result (λ first. (lines : List Round) → greatest_round lines ≡ last →
        length links.items ≡ link_count lines →
        ((link : ℕ) → EntryStands (link_entry links.items link) lines link) → first ≡ first_broken lines) }
{
    let mut first = None;
    let mut link: u32 = 0;
    for entry in links {
        let fault = fault_of(entry, last)?;
        first = with_link(first, link, fault);
        link += 1;
    }
    Ok(first)
}

/// What a link breaks first up to the last round of the trace.
fn fault_of(entry: Option<LinkState>, last: u64) -> Result<Option<LinkFault>, NoMemory>
    requires serves { EntryServes entry }
    ensures fault { IfOk result (λ fault. (lines : List Round) (link : ℕ) → greatest_round lines ≡ last →
        EntryStands entry lines link → IsFaultOf fault lines link) }
{
    match entry {
        Some(state) => state.fault(last),
        None => Ok(None),
    }
}

/// The first fault of some links, with what one more link breaks, which comes after them.
fn with_link(first: Option<TraceFault>, link: u32, fault: Option<LinkFault>) -> Option<TraceFault>
    ensures { result ≡ with_link first link fault }
{
    let Some(fault) = fault else {
        return first;
    };
    match first {
        Some(first) if first.round <= fault.round => Some(first),
        _ => Some(TraceFault {
            line: fault.line,
            round: fault.round,
            link,
            channel: fault.channel,
            rule: fault.rule,
        }),
    }
}
