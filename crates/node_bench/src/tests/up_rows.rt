//! Bursts of a narrow bus on a wider one: beats go to the lanes of their addresses, and back.

ghost use Rattle.std.specs.Prelude.{◌≤◌};

use crate::{Bench, Benched, Row};
use axi_beats::{Addr, BBeat, Burst, Lanes, RBeat, WBeat};
use axi_link::{Link, Out};
use std::test::Fail;
use up_node::{UpNode, crosses_threads};

impl Benched for UpNode {
    fn may_decide(&self, _round: u64, links: &[Link]) -> bool {
        self.can_decide(links)
    }
}

/// An INCR request for beats of 4 bytes.
fn request(id: u32, addr: u64, len: u8) -> Addr {
    Addr {
        id,
        addr,
        len,
        size: 2,
        burst: Burst::Incr,
        ..Addr::default()
    }
}

/// These bytes on the lanes from `first` on.
fn lanes(first: u8, bytes: [u8; 4]) -> Lanes
    requires { first ≤ 124 }
{
    let mut lanes = Lanes::zero();
    lanes.set(first, bytes[0]);
    lanes.set(first + 1, bytes[1]);
    lanes.set(first + 2, bytes[2]);
    lanes.set(first + 3, bytes[3]);
    lanes
}

fn data(first: u8, bytes: [u8; 4], strobe: u128, last: bool) -> WBeat
    requires { first ≤ 124 }
{
    WBeat {
        lanes: lanes(first, bytes),
        strobe,
        last,
        ..WBeat::default()
    }
}

fn answer(bytes: [u8; 4], last: bool) -> RBeat {
    RBeat {
        id: 1,
        lanes: lanes(0, bytes),
        last,
        ..RBeat::default()
    }
}

fn row(round: u64, offered: Out, moved: Out) -> Row {
    Row {
        round,
        offered,
        moved,
    }
}

fn w_offered(beat: WBeat) -> Out {
    Out {
        w_put: Some((0, beat)),
        ..Out::default()
    }
}

fn w_moved(beat: WBeat) -> Out {
    Out {
        w_take: Some(0),
        w_put: Some((1, beat)),
        ..Out::default()
    }
}

/// A write of three beats from address 6 on a bus of 4 bytes, above one of 16: its words are at 4, 8 and 12.
/// The last beat has a strobe beyond its bus, and comes no lower. Data waits for its address.
#[test]
fn write_data_goes_to_its_lanes(rt: HostRuntime) -> Result<(), Fail> {
    let mut bench = Bench::new(rt.alloc(), UpNode::new(0, 1, 4, 16), 2, 4)?;
    crosses_threads(&bench.node);
    let first = Out {
        aw_put: Some((0, request(1, 6, 2))),
        ..w_offered(data(0, [0, 0, 3, 4], 0b1100, false))
    };
    let address = Out {
        aw_take: Some(0),
        aw_put: Some((1, request(1, 6, 2))),
        ..Out::default()
    };
    let response = Out {
        b_put: Some((1, BBeat::default())),
        ..w_offered(data(0, [9, 10, 11, 12], 0b11111, true))
    };
    bench.run(&[
        row(2, first, address),
        row(
            3,
            w_offered(data(0, [5, 6, 7, 8], 0b0110, false)),
            w_moved(data(4, [0, 0, 3, 4], 0b1100 << 4, false)),
        ),
        row(
            4,
            response,
            Out {
                b_take: Some(1),
                b_put: Some((0, BBeat::default())),
                ..w_moved(data(8, [5, 6, 7, 8], 0b0110 << 8, false))
            },
        ),
        row(
            5,
            w_offered(data(0, [1, 2, 3, 4], 1, true)),
            w_moved(data(12, [9, 10, 11, 12], 0b1111 << 12, true)),
        ),
        row(6, Out::default(), Out::default()),
    ])?;
    Ok(())
}

/// Beats of 8 bytes, as they stand below: these bytes on the lower half, and these on the upper one.
fn below(low: [u8; 4], high: [u8; 4], last: bool) -> Out {
    let mut beat = answer(low, last);
    beat.lanes.set(4, high[0]);
    beat.lanes.set(5, high[1]);
    beat.lanes.set(6, high[2]);
    beat.lanes.set(7, high[3]);
    Out {
        r_put: Some((1, beat)),
        ..Out::default()
    }
}

/// A beat of read data that is taken below and put above.
fn above(bytes: [u8; 4], last: bool) -> Out {
    Out {
        r_take: Some(1),
        r_put: Some((0, answer(bytes, last))),
        ..Out::default()
    }
}

/// A read of two beats from address 4, above a bus of 8 bytes: its words are on the upper and on the lower
/// half. A beat of no read isn't taken.
#[test]
fn read_data_comes_back_to_its_lanes(rt: HostRuntime) -> Result<(), Fail> {
    let mut bench = Bench::new(rt.alloc(), UpNode::new(0, 1, 4, 8), 2, 4)?;
    let asked = Out {
        ar_put: Some((0, request(1, 4, 1))),
        ..Out::default()
    };
    let address = Out {
        ar_take: Some(0),
        ar_put: Some((1, request(1, 4, 1))),
        ..Out::default()
    };
    bench.run(&[
        row(2, asked, address),
        row(
            3,
            below([9, 9, 9, 9], [1, 2, 3, 4], false),
            above([1, 2, 3, 4], false),
        ),
        row(
            4,
            below([5, 6, 7, 8], [9, 9, 9, 9], true),
            above([5, 6, 7, 8], true),
        ),
        row(5, below([1, 1, 1, 1], [1, 1, 1, 1], true), Out::default()),
    ])?;
    Ok(())
}
