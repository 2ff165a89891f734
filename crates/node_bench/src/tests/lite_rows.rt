//! Single beats become whole words, and answers go back under the IDs of their requests.

use crate::{Bench, Benched, Row};
use axi_beats::{Addr, BBeat, Burst, Lanes, RBeat, Resp, Tag, WBeat};
use axi_link::{Link, Out};
use lite_node::{LiteNode, crosses_threads};
use std::test::Fail;

impl Benched for LiteNode {
    fn may_decide(&self, _round: u64, links: &[Link]) -> bool {
        self.can_decide(links)
    }
}

fn tag(txn: u32, low: u8, high: u8) -> Tag {
    Tag { txn, low, high }
}

/// Two bytes at 0x1006, which are on lanes 2 and 3 of a bus of 4 bytes.
fn request(id: u32, txn: u32) -> Addr {
    Addr {
        id,
        addr: 0x1006,
        len: 0,
        size: 1,
        burst: Burst::Incr,
        tag: tag(txn, 0, 0),
    }
}

/// The word that they are in.
fn word(txn: u32) -> Addr {
    Addr {
        id: 0,
        addr: 0x1004,
        len: 0,
        size: 2,
        burst: Burst::Incr,
        tag: tag(txn, 2, 3),
    }
}

fn data(txn: u32) -> WBeat {
    WBeat {
        strobe: 0b1100,
        last: true,
        tag: tag(txn, 0, 0),
        ..WBeat::default()
    }
}

fn response(id: u32, tag: Tag) -> BBeat {
    BBeat {
        id,
        resp: Resp::SlvErr,
        tag,
    }
}

/// Four lanes of 7.
fn read_data(id: u32, tag: Tag) -> RBeat {
    let mut lanes = Lanes::zero();
    lanes.set(0, 7);
    lanes.set(1, 7);
    lanes.set(2, 7);
    lanes.set(3, 7);
    RBeat {
        id,
        resp: Resp::Okay,
        last: true,
        tag,
        lanes,
    }
}

/// A write of ID 9 and a read of ID 5, then one of each with other IDs.
fn requests() -> [Row; 2] {
    let first = Row {
        round: 1,
        offered: Out {
            aw_put: Some((0, request(9, 1))),
            w_put: Some((0, data(1))),
            ar_put: Some((0, request(5, 2))),
            ..Out::default()
        },
        moved: Out {
            aw_take: Some(0),
            aw_put: Some((1, word(1))),
            w_take: Some(0),
            w_put: Some((1, data(1))),
            ar_take: Some(0),
            ar_put: Some((1, word(2))),
            ..Out::default()
        },
    };
    let second = Row {
        round: 2,
        offered: Out {
            aw_put: Some((0, request(8, 3))),
            ar_put: Some((0, request(4, 4))),
            ..Out::default()
        },
        moved: Out {
            aw_take: Some(0),
            aw_put: Some((1, word(3))),
            ar_take: Some(0),
            ar_put: Some((1, word(4))),
            ..Out::default()
        },
    };
    [first, second]
}

/// Their first answers, under the IDs of the first requests.
fn answers() -> Row {
    Row {
        round: 3,
        offered: Out {
            b_put: Some((1, response(0, tag(1, 2, 3)))),
            r_put: Some((1, read_data(0, tag(2, 2, 3)))),
            ..Out::default()
        },
        moved: Out {
            b_take: Some(1),
            b_put: Some((0, response(9, tag(1, 0, 0)))),
            r_take: Some(1),
            r_put: Some((0, read_data(5, tag(2, 0, 0)))),
            ..Out::default()
        },
    }
}

#[test]
fn answers_have_the_ids_of_the_oldest_requests(rt: HostRuntime) -> Result<(), Fail> {
    let mut bench = Bench::new(rt.alloc(), LiteNode::new(0, 1, 4), 2, 4)?;
    crosses_threads(&bench.node);
    bench.run(&requests())?;
    bench.run(&[answers()])?;
    Ok(())
}
