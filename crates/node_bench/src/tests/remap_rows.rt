//! An ID keeps the one that stands for it below while it is in flight, and a request waits where no ID is
//! left.

use crate::{Bench, Benched, Row};
use axi_beats::{Addr, BBeat, RBeat, WBeat};
use axi_link::{Link, Out};
use remap_node::{RemapNode, crosses_threads};
use std::test::Fail;

impl Benched for RemapNode {
    fn may_decide(&self, _round: u64, links: &[Link]) -> bool {
        self.can_decide(links)
    }
}

fn request(id: u32) -> Addr {
    Addr {
        id,
        ..Addr::default()
    }
}

fn response(id: u32) -> BBeat {
    BBeat {
        id,
        ..BBeat::default()
    }
}

fn read_data(id: u32, last: bool) -> RBeat {
    RBeat {
        id,
        last,
        ..RBeat::default()
    }
}

/// A write under one ID goes on under another one.
fn write_goes_on(round: u64, input: u32, output: u32) -> Row {
    Row {
        round,
        offered: Out {
            aw_put: Some((0, request(input))),
            ..Out::default()
        },
        moved: Out {
            aw_take: Some(0),
            aw_put: Some((1, request(output))),
            ..Out::default()
        },
    }
}

/// A response under one ID goes back under another one.
fn response_goes_back(round: u64, output: u32, input: u32) -> Row {
    Row {
        round,
        offered: Out {
            b_put: Some((1, response(output))),
            ..Out::default()
        },
        moved: Out {
            b_take: Some(1),
            b_put: Some((0, response(input))),
            ..Out::default()
        },
    }
}

/// Link 0 is above, and link 1 below, which has the IDs 0 and 1. Writes of the IDs 5, 7 and 5 go on, and
/// one of ID 2 waits until the round after the response to ID 7, and then has ID 7's.
#[test]
fn a_third_id_waits(rt: HostRuntime) -> Result<(), Fail> {
    let mut bench = Bench::new(rt.alloc(), RemapNode::new(0, 1, 1), 2, 4)?;
    crosses_threads(&bench.node);
    let stalled = Row {
        round: 4,
        offered: Out {
            aw_put: Some((0, request(2))),
            w_put: Some((0, WBeat::default())),
            ..Out::default()
        },
        moved: Out {
            w_take: Some(0),
            w_put: Some((1, WBeat::default())),
            ..Out::default()
        },
    };
    let released = Row {
        round: 6,
        offered: Out::default(),
        moved: Out {
            aw_take: Some(0),
            aw_put: Some((1, request(1))),
            ..Out::default()
        },
    };
    bench.run(&[
        write_goes_on(1, 5, 0),
        write_goes_on(2, 7, 1),
        write_goes_on(3, 5, 0),
        stalled,
        response_goes_back(5, 1, 7),
        released,
        response_goes_back(7, 0, 5),
        response_goes_back(8, 1, 2),
        response_goes_back(9, 0, 5),
    ])?;
    Ok(())
}

/// Where there is one ID below, a read of another ID waits for the last beat.
#[test]
fn a_read_leaves_with_its_last_beat(rt: HostRuntime) -> Result<(), Fail> {
    let mut bench = Bench::new(rt.alloc(), RemapNode::new(0, 1, 0), 2, 4)?;
    let sent = Row {
        round: 1,
        offered: Out {
            ar_put: Some((0, request(3))),
            ..Out::default()
        },
        moved: Out {
            ar_take: Some(0),
            ar_put: Some((1, request(0))),
            ..Out::default()
        },
    };
    let first_beat = Row {
        round: 2,
        offered: Out {
            ar_put: Some((0, request(4))),
            r_put: Some((1, read_data(0, false))),
            ..Out::default()
        },
        moved: Out {
            r_take: Some(1),
            r_put: Some((0, read_data(3, false))),
            ..Out::default()
        },
    };
    let last_beat = Row {
        round: 4,
        offered: Out {
            r_put: Some((1, read_data(0, true))),
            ..Out::default()
        },
        moved: Out {
            r_take: Some(1),
            r_put: Some((0, read_data(3, true))),
            ..Out::default()
        },
    };
    let released = Row {
        round: 5,
        offered: Out::default(),
        moved: Out {
            ar_take: Some(0),
            ar_put: Some((1, request(0))),
            ..Out::default()
        },
    };
    bench.run(&[sent, first_beat, last_beat, released])?;
    Ok(())
}
