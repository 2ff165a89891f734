//! The lines that writes to a memory touch.

ghost use Rattle.std.specs.Prelude.{◌≡◌, ◌<◌, ◌+◌, ◌^◌, ◌++◌, IfOk, OnOk, length, take};
ghost use Rattle.burst_address.specs.Legal.{IsLegal};
ghost use Rattle.net_opening.specs.Touched.{lines_of_burst, lines_touched};
ghost use Rattle.net_build.specs.Source.{IsSource, lines_written};

use crate::source::Source;
use axi_beats::Addr;
use burst_address::beat_address;
use net_opening::upwards;
use std::alloc::{AllocError, Global};

/// The lines that the writes to a plan node touch, upwards.
pub(crate) fn lines_touched(
    alloc: Global,
    source: &Source<'_>,
    node: u32,
) -> Result<Vec<u64>, AllocError>
    requires { IsSource source.now.plan.now source.now.traffic.now source.now.targets.now }
    ensures { IfOk result (λ lines. lines.items ≡ lines_touched source.now.plan.now source.now.traffic.now node) }
{
    let mut lines = Vec::new(alloc);
    for place in 0..source.traffic.count() {
        push_written(&mut lines, source, place, node)?;
    }
    Ok(upwards(lines))
}

// Adds the lines of the transaction at a place, counted from 0, where it is a write to the node.
fn push_written(
    lines: &mut Vec<u64>,
    source: &Source<'_>,
    place: u32,
    node: u32,
) -> Result<(), AllocError>
    requires source { IsSource source.now.plan.now source.now.traffic.now source.now.targets.now }
    requires known { place < length source.now.traffic.now }
    requires so_far { lines.old.items ≡ lines_written source.now.plan.now node (take place source.now.traffic.now) }
    ensures { OnOk result (lines.new.items ≡ lines_written source.now.plan.now node (take (place + 1) source.now.traffic.now)) }
{
    let txn = source.traffic.txn(place + 1);
    if txn.write && source.targets[place as usize] == node {
        push_lines(lines, &txn.request)?;
    }
    Ok(())
}

// Adds the lines of the beats of a burst.
#[tactic(auto, unfolding(node_graph::specs::Graph::numbers))]
fn push_lines(lines: &mut Vec<u64>, request: &Addr) -> Result<(), AllocError>
    requires start { request.now.addr < 2 ^ 63 }
    requires legal { IsLegal request.now 128 }
    ensures { OnOk result (lines.new.items ≡ lines.old.items ++ lines_of_burst request.now) }
{
    for beat in 0..u32::from(request.len) + 1 {
        lines.push(beat_address(request, beat) / 128)?;
    }
    Ok(())
}
