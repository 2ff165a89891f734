//! Texts that are refused on a plan, and what is read of others.

ghost use Rattle.std.specs.Prelude.{IfOk};
ghost use Rattle.plan_traffic.specs.Accepted.{IsTraffic};

use elaborate::{Plan, plan_of};
use plan_traffic::{Traffic, read_traffic, round_bound};
use refusals::{Cause, DocFault, Refusal};
use std::alloc::Global;
use std::process::Abort;
use std::test::Fail;
use topology::read_topology;

// A manager above a memory. The longest delay is of 3 rounds.
fn small_plan(alloc: Global) -> Result<Plan, Fail> {
    let text =
        "version = 1\nnode = [\n {name=\"m\", kind=\"manager\", bus=4, id_width=4, to=\"ram\", accept=[0,3]},\n {name=\"ram\", kind=\"memory\", bus=4, base=0, size=8192},\n]\n";
    let wiring = read_topology(alloc, text).map_err(|_| Fail::from("the topology is refused"))?;
    plan_of(alloc, wiring).map_err(|_| Fail::from("no memory"))
}

// What a text comes to.
fn read(alloc: Global, text: &str, plan: &Plan) -> Result<Traffic, DocFault>
    ensures { IfOk result (IsTraffic plan.now) }
{
    if text.len() > 16_777_216 {
        return Err(DocFault::NoMemory);
    }
    read_traffic(alloc, text, plan)
}

// Why a text is refused.
fn fault_of(alloc: Global, text: &str, plan: &Plan) -> Option<DocFault> {
    match read(alloc, text, plan) {
        Ok(_) => None,
        Err(fault) => Some(fault),
    }
}

#[test]
fn lines_are_refused(rt: HostRuntime) -> Result<(), Fail> {
    let plan = small_plan(rt.alloc())?;
    for (text, refusal) in [
        ("wait ram\n", Refusal::at(Cause::UnknownManager, 1)),
        ("\nread m 16 0x0 4 incr 1\n", Refusal::at(Cause::BadId, 2)),
        ("read m 0 0x0 8 incr 1\n", Refusal::illegal_burst(1, 1)),
    ] {
        assert_eq!(rt;
            fault_of(rt.alloc(), text, &plan),
            Some(DocFault::Refused(refusal)),
            "at {}",
            text
        );
    }
    Ok(())
}

#[test]
fn lines_are_read(rt: HostRuntime) -> Result<(), Fail> {
    let plan = small_plan(rt.alloc())?;
    let text = "write m 1 0x0 4 incr 11223344 55--7788\nwait m\nread m 2 0x10 4 incr 2\n";
    let Ok(traffic) = read(rt.alloc(), text, &plan) else {
        return Err(Fail::from("refused"));
    };
    assert!(rt; traffic.count() == 2);
    assert_eq!(rt; traffic.bytes(1).len(), 8);
    assert_eq!(rt; traffic.txn(2).after, 1);
    assert_eq!(rt; traffic.manager(2), 0);
    let Ok(script) = traffic.script(rt.alloc(), 0) else {
        return Err(Fail::from("no memory"));
    };
    assert_eq!(rt; script.len(), 2);
    // Two pieces each, six moves a piece at each of two nodes, and four rounds a move at the most.
    assert_eq!(rt; round_bound(&plan, &traffic), 192);
    Ok(())
}
