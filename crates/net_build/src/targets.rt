//! The plan nodes where transactions end.

ghost use Rattle.std.specs.Prelude.{◌≡◌, ◌<◌, IfOk, Some, length, map, slice_get};
ghost use Rattle.std.specs.Option.{option_map};
ghost use Rattle.plan_traffic.specs.Accepted.{IsTraffic};
ghost use Rattle.plan_traffic.specs.Due.{target_number};

use elaborate::Plan;
use plan_traffic::Traffic;
use std::alloc::{AllocError, Global};

/// For each transaction, in order of number, the plan node where it ends.
pub(crate) fn targets_of(
    alloc: Global,
    plan: &Plan,
    traffic: &Traffic,
) -> Result<Vec<u32>, AllocError>
    requires { IsTraffic plan.now traffic.now }
    ensures { IfOk result (λ targets. targets.items ≡ map (target_number plan.now) traffic.now) }
{
    let mut targets = Vec::new(alloc);
    for place in 0..traffic.count() {
        targets.push(target_at(plan, traffic, place))?;
    }
    Ok(targets)
}

// The plan node where the transaction at a place, counted from 0, ends.
fn target_at(plan: &Plan, traffic: &Traffic, place: u32) -> u32
    requires traffic { IsTraffic plan.now traffic.now }
    requires known { place < length traffic.now }
    ensures { option_map (target_number plan.now) (slice_get traffic.now place) ≡ Some result }
{
    let number = place + 1;
    plan.path(traffic.manager(number), traffic.txn(number).request.addr)
        .0
}
