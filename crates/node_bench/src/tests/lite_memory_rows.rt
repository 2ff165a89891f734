//! A Lite memory answers whole words, and honours every strobe.

use crate::{Bench, Benched, Row};
use axi_beats::{Addr, BBeat, Burst, Lanes, RBeat, Resp, Tag, WBeat};
use axi_link::{Link, Out};
use lite_memory_node::{LiteMemoryNode, crosses_threads};
use memory_node::{MemoryConfig, MemoryNode};
use std::test::Fail;

const CONFIG: MemoryConfig = MemoryConfig {
    base: 0x1000,
    size: 0x1000,
    bus: 4,
    fill: 0xa5,
};

impl Benched for LiteMemoryNode {
    fn may_decide(&self, _round: u64, links: &[Link]) -> bool {
        self.can_decide(links)
    }
}

/// Of these two requests for the word at 0x1010, the read wants lanes 1 and 2.
fn tag(txn: u32) -> Tag {
    Tag {
        txn,
        low: 1,
        high: 2,
    }
}

fn request(txn: u32) -> Addr {
    Addr {
        addr: 0x1010,
        size: 2,
        burst: Burst::Incr,
        tag: tag(txn),
        ..Addr::default()
    }
}

/// These bytes on lanes 0 to 3.
fn lanes(bytes: [u8; 4]) -> Lanes {
    let mut lanes = Lanes::zero();
    lanes.set(0, bytes[0]);
    lanes.set(1, bytes[1]);
    lanes.set(2, bytes[2]);
    lanes.set(3, bytes[3]);
    lanes
}

/// A write of the bytes 0 and 3 of the word.
fn write() -> Out {
    let data = WBeat {
        lanes: lanes([0x11, 0x22, 0x33, 0x44]),
        strobe: 0b1001,
        last: true,
        ..WBeat::default()
    };
    Out {
        aw_put: Some((0, request(1))),
        w_put: Some((0, data)),
        ..Out::default()
    }
}

fn response() -> Out {
    let beat = BBeat {
        tag: tag(1),
        ..BBeat::default()
    };
    Out {
        b_put: Some((0, beat)),
        ..Out::default()
    }
}

/// The whole word.
fn read_data() -> Out {
    let beat = RBeat {
        lanes: lanes([0x11, 0xa5, 0xa5, 0x44]),
        resp: Resp::Okay,
        last: true,
        tag: tag(2),
        ..RBeat::default()
    };
    Out {
        r_put: Some((0, beat)),
        ..Out::default()
    }
}

/// A round in which this comes, and the memory moves that.
fn row(round: u64, offered: Out, moved: Out) -> Row {
    Row {
        round,
        offered,
        moved,
    }
}

/// The write comes in round 1, and the read in round 3.
fn rows() -> [Row; 4] {
    let address = Out {
        aw_take: Some(0),
        ..Out::default()
    };
    let data = Out {
        w_take: Some(0),
        ..Out::default()
    };
    let read = Out {
        ar_put: Some((0, request(2))),
        ..Out::default()
    };
    let answered = Out {
        ar_take: Some(0),
        ..response()
    };
    [
        row(1, write(), address),
        row(2, Out::default(), data),
        row(3, read, answered),
        row(4, Out::default(), read_data()),
    ]
}

#[test]
fn all_lanes_of_a_word_are_answered(rt: HostRuntime) -> Result<(), Fail> {
    let bytes = MemoryNode::new(rt.alloc(), CONFIG, &[], &[], &[0], &[0], 0, &[0x20])?;
    let memory = LiteMemoryNode::new(bytes);
    crosses_threads(&memory);
    let mut bench = Bench::new(rt.alloc(), memory, 1, 2)?;
    bench.run(&rows())?;
    assert_eq!(rt; bench.node.byte(0x1010), Some(0x11));
    assert_eq!(rt; bench.node.byte(0x1011), Some(0xa5));
    assert_eq!(rt; bench.node.byte(0x2000), None);
    Ok(())
}
