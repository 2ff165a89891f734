//! A small network, built from texts and run to its end.

ghost use Rattle.std.specs.Prelude.{◌≡◌, None};
ghost use Rattle.elaborate.specs.Unbuilt.{unbuilt_at};
ghost use Rattle.plan_traffic.specs.Accepted.{IsTraffic};

use elaborate::{Plan, plan_of, unbuilt};
use net_build::Net;
use net_plan::openings_are_sound;
use plan_traffic::{Traffic, read_traffic};
use std::alloc::Global;
use std::process::Abort;
use std::test::Fail;
use topology::read_topology;

// A manager above a slice, and a memory below it.
const TOPOLOGY: &str =
    "version = 1\nnode = [\n {name=\"m\", kind=\"manager\", bus=4, id_width=4, to=\"s\"},\n {name=\"s\", kind=\"slice\", to=\"ram\"},\n {name=\"ram\", kind=\"memory\", bus=4, base=0, size=8192},\n]\n";

const LINES: &str = "write m 1 0x10 4 incr 11223344\nwait m\nread m 1 0x10 4 incr 1\n";

// The network of a plan with its traffic.
fn built(alloc: Global, plan: Plan, traffic: Traffic) -> Result<Net, Fail>
    requires traffic { IsTraffic plan traffic }
    requires built { unbuilt_at plan ≡ None }
{
    let _ = plan.wiring().count();
    openings_are_sound();
    Net::build(alloc, plan, traffic).map_err(|_| Fail::from("no memory"))
}

// The network of these texts.
fn net_of(alloc: Global, topology: &str, lines: &str) -> Result<Net, Fail> {
    let wiring = read_topology(alloc, topology).map_err(|_| Fail::from("the topology is refused"))?;
    let plan = plan_of(alloc, wiring).map_err(|_| Fail::from("no memory"))?;
    if unbuilt(plan.wiring()).is_some() || lines.len() > 16_777_216 {
        return Err(Fail::from("it can't be run"));
    }
    let Ok(traffic) = read_traffic(alloc, lines, &plan) else {
        return Err(Fail::from("the traffic is refused"));
    };
    built(alloc, plan, traffic)
}

// Makes a round, where one is left.
fn make_round(net: &mut Net) {
    if !net.decided() && net.rounds() < net.bound() {
        net.decide();
        net.commit();
    }
}

// The rounds of the issue of a transaction and of its answer.
fn rounds_of(net: &Net, number: u32) -> Option<(u64, u64)> {
    if number == 0 || number > net.traffic().count() {
        return None;
    }
    let answer = net.answer(number)?;
    Some((answer.issued(), answer.answered()))
}

// A byte of a plan node.
fn byte_of(net: &Net, node: u32, address: u64) -> Option<u8> {
    if node < net.plan().nodes() {
        net.byte(node, address)
    } else {
        None
    }
}

#[test]
fn a_network_runs_to_its_end(rt: HostRuntime) -> Result<(), Fail> {
    let mut net = net_of(rt.alloc(), TOPOLOGY, LINES)?;
    assert_eq!(rt; net.bound(), 36);
    assert_eq!(rt; net.links(), 2);
    for _round in 0..13 {
        assert!(rt; !net.finished());
        make_round(&mut net);
    }
    assert!(rt; net.finished());
    assert_eq!(rt; rounds_of(&net, 1), Some((1, 7)));
    assert_eq!(rt; rounds_of(&net, 2), Some((8, 13)));
    assert_eq!(rt; byte_of(&net, 2, 0x11), Some(0x22));
    Ok(())
}
