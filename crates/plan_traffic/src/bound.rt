//! By how many rounds a run is finished at the latest.

ghost use Rattle.std.specs.Prelude.{◌≡◌, ◌<◌, ◌≤◌, ◌*◌, ◌^◌, length, sum_by};
ghost use Rattle.burst_address.specs.Formulas.{beats_of};
ghost use Rattle.node_core.specs.Paces.{longest};
ghost use Rattle.plan_traffic.specs.Accepted.{IsTraffic, Suits};
ghost use Rattle.plan_traffic.specs.Bound.{delay_of_nodes, most_moves, pieces_of, round_bound, words_of_beat};
ghost use Rattle.plan_traffic.specs.Inside.{traffic_item};

use crate::build::Item;
use crate::transactions::Traffic;
use axi_beats::Addr;
use elaborate::Plan;
use topology::Wiring;

/// The most rounds that a run of this traffic on this plan takes: the moves of all pieces of its bursts,
/// times one more than the longest delay of a node.
pub fn round_bound(plan: &Plan, traffic: &Traffic) -> u64
    requires { IsTraffic plan.now traffic.now }
    ensures bound { result ≡ round_bound plan.now traffic.now }
    ensures small { result < 2 ^ 62 }
{
    let delay = u64::from(longest_delay(plan.wiring()));
    (1 + delay) * all_moves(plan, traffic)
}

// The most moves of all transactions.
fn all_moves(plan: &Plan, traffic: &Traffic) -> u64
    requires { IsTraffic plan.now traffic.now }
    ensures moves { result ≡ sum_by (most_moves plan.now) traffic.now }
    ensures small { result ≤ 51539607552 }
{
    let mut moves = 0;
    for item in traffic.items() {
        moves += most_moves(plan, item);
    }
    moves
}

// The most moves that the pieces of a transaction make on its path.
fn most_moves(plan: &Plan, item: &Item) -> u64
    requires { Suits plan.now (traffic_item item.now) }
    ensures moves { result ≡ most_moves plan.now (traffic_item item.now) }
    ensures few { result ≤ 196608 * beats_of item.now.txn.request }
    ensures small { result ≤ 50331648 }
{
    let request = &item.txn.request;
    let (_, nodes) = plan.path(item.manager, request.addr);
    6 * pieces_of(request) * u64::from(nodes)
}

// The words of 4 bytes of a burst, where each beat has at least one.
fn pieces_of(request: &Addr) -> u64
    requires { request.now.size ≤ 7 }
    ensures pieces { result ≡ pieces_of request.now }
    ensures few { result ≤ 32 * beats_of request.now }
    ensures small { result ≤ 8192 }
{
    let beats = u64::from(request.len) + 1;
    beats * words_of_beat(request.size)
}

// The words of 4 bytes of a beat, at least one.
fn words_of_beat(size: u8) -> u64
    requires { size ≤ 7 }
    ensures words { result ≡ words_of_beat size }
    ensures few { result ≤ 32 }
{
    let bytes: u64 = 1 << size;
    (bytes / 4).max(1)
}

// The longest delay of all nodes, in rounds.
fn longest_delay(nodes: &Wiring) -> u8
    ensures { result ≡ delay_of_nodes nodes.now }
{
    let mut most = 0;
    for node in 0..nodes.count() {
        let delay = longest(nodes.accept(node)).max(longest(nodes.give(node)));
        most = most.max(delay);
    }
    most
}

// The longest of some delays.
fn longest(delays: &[u8]) -> u8
    ensures { result ≡ longest delays.now }
{
    let mut most = 0;
    let mut rest = delays;
    while let [delay, more @ ..] = rest {
        most = most.max(*delay);
        rest = more;
    }
    most
}
