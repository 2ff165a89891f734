//! What holds of every network over its rounds.

ghost use Rattle.net_runs.specs.Ports.{PortsAreLegal};
ghost use Rattle.net_runs.specs.RunKeeps.{RunsGoOn, RunsKeep};
ghost use Rattle.net_runs.specs.Run.{LinksRun};

use net_model::AnyKind;

/// Every link of a network that is wired is moved by its two nodes.
pub fn law_of_links<K: AnyKind>()
    ensures { LinksRun K.kind }
{}

/// Every node keeps what its kind keeps, every link asks and answers as it should, and the next round
/// can be made, after every number of rounds.
pub fn laws_of_contracts<K: AnyKind>()
    ensures keep { RunsKeep K.kind }
    ensures go_on { RunsGoOn K.kind }
{}

/// Every port of a network whose links have legal bursts to carry, on AXI4-Lite words alone, breaks none
/// of the rules of its kind, after any number of rounds.
pub fn law_of_ports<K: AnyKind>()
    ensures { PortsAreLegal K.kind }
{}
