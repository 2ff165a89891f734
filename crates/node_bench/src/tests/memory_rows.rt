//! A memory's bytes, and what it answers round by round.

use crate::{Bench, Benched, Row};
use axi_beats::{Addr, BBeat, Burst, Lanes, RBeat, Resp, WBeat};
use axi_link::{Link, Out};
use memory_node::{MemoryConfig, MemoryNode, Range, crosses_threads};
use std::test::Fail;

const CONFIG: MemoryConfig = MemoryConfig {
    base: 0x1000,
    size: 0x1000,
    bus: 4,
    fill: 0xa5,
};

/// The last line of the memory can't be read.
const HOLE: Range = Range {
    base: 0x1f80,
    size: 0x80,
};

impl Benched for MemoryNode {
    fn may_decide(&self, _round: u64, links: &[Link]) -> bool {
        self.can_decide(links)
    }
}

/// A byte has the fill value in the memory, and there is none outside.
#[test]
fn bytes_are_in_the_range(rt: HostRuntime) -> Result<(), Fail> {
    let memory = MemoryNode::new(rt.alloc(), CONFIG, &[], &[], &[0], &[0], 0, &[0x20])?;
    crosses_threads(&memory);
    for (addr, want) in [
        (0x0fff, None),
        (0x1000, Some(0xa5)),
        (0x1fff, Some(0xa5)),
        (0x2000, None),
    ] {
        assert_eq!(rt; memory.byte(addr), want);
    }
    Ok(())
}

/// An INCR request for one beat of 4 bytes.
fn request(id: u32, addr: u64) -> Addr {
    Addr {
        id,
        addr,
        size: 2,
        burst: Burst::Incr,
        ..Addr::default()
    }
}

/// These bytes on lanes 0 to 3.
fn lanes(bytes: [u8; 4]) -> Lanes {
    let mut lanes = Lanes::zero();
    lanes.set(0, bytes[0]);
    lanes.set(1, bytes[1]);
    lanes.set(2, bytes[2]);
    lanes.set(3, bytes[3]);
    lanes
}

/// A write of the bytes 1 and 3 at 0x1010, and a read of the hole: both come in round 1.
fn first() -> Out {
    let data = WBeat {
        lanes: lanes([0x11, 0x22, 0x33, 0x44]),
        strobe: 0b1010,
        last: true,
        ..WBeat::default()
    };
    Out {
        aw_put: Some((0, request(1, 0x1010))),
        w_put: Some((0, data)),
        ar_put: Some((0, request(2, 0x1f80))),
        ..Out::default()
    }
}

/// A read of what was written.
fn second() -> Out {
    Out {
        ar_put: Some((0, request(3, 0x1010))),
        ..Out::default()
    }
}

/// The only beat of the answer to a read.
fn answer(id: u32, bytes: [u8; 4], resp: Resp) -> Out {
    let beat = RBeat {
        id,
        lanes: lanes(bytes),
        resp,
        last: true,
        ..RBeat::default()
    };
    Out {
        r_put: Some((0, beat)),
        ..Out::default()
    }
}

/// The response to the write.
fn response() -> Out {
    let beat = BBeat {
        id: 1,
        ..BBeat::default()
    };
    Out {
        b_put: Some((0, beat)),
        ..Out::default()
    }
}

/// What comes in rounds 1 to 5, and what the memory moves in them.
fn rows() -> [Row; 5] {
    let addresses = Out {
        aw_take: Some(0),
        ar_take: Some(0),
        ..Out::default()
    };
    let data = Out {
        w_take: Some(0),
        ..Out::default()
    };
    let refused = Out {
        ar_take: Some(0),
        ..answer(2, [0; 4], Resp::SlvErr)
    };
    let read = answer(3, [0xa5, 0x22, 0xa5, 0x44], Resp::Okay);
    [
        row(1, first(), addresses),
        row(2, Out::default(), data),
        row(3, second(), refused),
        row(4, Out::default(), response()),
        row(5, Out::default(), read),
    ]
}

/// A round in which this comes, and the memory moves that.
fn row(round: u64, offered: Out, moved: Out) -> Row {
    Row {
        round,
        offered,
        moved,
    }
}

/// It takes what comes at once, and waits a round before each answer.
#[test]
fn a_read_sees_what_was_written(rt: HostRuntime) -> Result<(), Fail> {
    let memory = MemoryNode::new(rt.alloc(), CONFIG, &[], &[HOLE], &[0], &[1], 0, &[0x20])?;
    let mut bench = Bench::new(rt.alloc(), memory, 1, 2)?;
    bench.run(&rows())?;
    assert_eq!(rt; bench.node.byte(0x1011), Some(0x22));
    assert_eq!(rt; bench.node.byte(0x1012), Some(0xa5));
    Ok(())
}
