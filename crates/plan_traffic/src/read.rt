//! The reader of a traffic.

ghost use Rattle.std.specs.Prelude.{◌≡◌, ◌≤◌, length, IfErr, IfOk, None};
ghost use Rattle.plain_text.specs.Lines.{lines};
ghost use Rattle.plan_traffic.specs.Accepted.{IsTraffic};
ghost use Rattle.plan_traffic.specs.Traffic.{IsRefusal, traffic_refusal, traffic_of};

use crate::build::collect_items;
use crate::order::is_too_much;
use crate::refusal::least_refusal;
use crate::transactions::Traffic;
use elaborate::Plan;
use refusals::{Cause, DocFault, Refusal};
use std::alloc::Global;
use topology::Wiring;

/// The transactions that the lines of the text ask of the managers of a plan. The text has at most
/// 16,777,216 bytes.
///
/// # Errors
///
/// The refusal with the least code, from 17 to 21, and of those with one code the one of the first line.
/// Want of memory comes only where the traffic isn't refused.
pub fn read_traffic(alloc: Global, text: &str, plan: &Plan) -> Result<Traffic, DocFault>
    requires text { length text.now ≤ 16777216 }
    ensures accepted { IfOk result (λ _. traffic_refusal plan.now (lines text.now) ≡ None) }
    ensures traffic { IfOk result (λ traffic. traffic ≡ traffic_of plan.now (lines text.now)) }
    ensures known { IfOk result (IsTraffic plan.now) }
    ensures refused { IfErr result (IsRefusal (traffic_refusal plan.now (lines text.now))) }
{
    read_lines(alloc, text.as_bytes(), plan.wiring())
}

// The transactions that the lines of the text ask of the managers among a document's nodes.
fn read_lines(alloc: Global, text: &[u8], nodes: &Wiring) -> Result<Traffic, DocFault>
    requires text { length text.now ≤ 16777216 }
    ensures accepted { IfOk result (λ _. traffic_refusal nodes.now (lines text.now) ≡ None) }
    ensures traffic { IfOk result (λ traffic. traffic ≡ traffic_of nodes.now (lines text.now)) }
    ensures known { IfOk result (IsTraffic nodes.now) }
    ensures refused { IfErr result (IsRefusal (traffic_refusal nodes.now (lines text.now))) }
{
    match collect_items(alloc, text, nodes) {
        Some(items) => Ok(Traffic::from_items(items)),
        None => Err(fault_of(text, nodes)),
    }
}

// What is wrong with lines that gave no transactions: their refusal, or else memory was wanting.
fn fault_of(text: &[u8], nodes: &Wiring) -> DocFault
    requires text { length text.now ≤ 16777216 }
    ensures { IsRefusal (traffic_refusal nodes.now (lines text.now)) result }
{
    match traffic_refusal(text, nodes) {
        Some(refusal) => DocFault::Refused(refusal),
        None => DocFault::NoMemory,
    }
}

// Why the lines of the text are refused, if they are.
fn traffic_refusal(text: &[u8], nodes: &Wiring) -> Option<Refusal>
    requires text { length text.now ≤ 16777216 }
    ensures { result ≡ traffic_refusal nodes.now (lines text.now) }
{
    match least_refusal(text, nodes) {
        Some(refusal) => Some(refusal),
        None if is_too_much(text, nodes) => Some(Refusal::new(Cause::TooMuchTraffic)),
        None => None,
    }
}
