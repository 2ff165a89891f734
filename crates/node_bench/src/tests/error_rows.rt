//! Everything that comes is answered with DECERR.

use crate::{Bench, Benched, Row};
use axi_beats::{Addr, BBeat, RBeat, Resp, WBeat};
use axi_link::{Link, Out};
use error_node::{ErrorNode, crosses_threads};
use std::test::Fail;

impl Benched for ErrorNode {
    fn may_decide(&self, _round: u64, links: &[Link]) -> bool {
        self.can_decide(links)
    }
}

fn request(id: u32, len: u8) -> Addr {
    Addr {
        id,
        len,
        ..Addr::default()
    }
}

/// A write of one beat and a read of two, at once.
#[test]
fn a_write_and_a_read_are_answered_with_decerr(rt: HostRuntime) -> Result<(), Fail> {
    let mut bench = Bench::new(rt.alloc(), ErrorNode::new(0), 1, 2)?;
    crosses_threads(&bench.node);
    let offered = Out {
        aw_put: Some((0, request(1, 0))),
        w_put: Some((0, WBeat::default())),
        ar_put: Some((0, request(2, 1))),
        ..Out::default()
    };
    let taken = Out {
        aw_take: Some(0),
        ar_take: Some(0),
        ..Out::default()
    };
    let first = RBeat {
        id: 2,
        resp: Resp::DecErr,
        ..RBeat::default()
    };
    let beats = Out {
        w_take: Some(0),
        r_put: Some((0, first)),
        ..Out::default()
    };
    let response = BBeat {
        id: 1,
        resp: Resp::DecErr,
        ..BBeat::default()
    };
    let last = RBeat {
        id: 2,
        resp: Resp::DecErr,
        last: true,
        ..RBeat::default()
    };
    let ends = Out {
        b_put: Some((0, response)),
        r_put: Some((0, last)),
        ..Out::default()
    };
    let second = Out::default();
    let third = Out::default();
    bench.run(&[
        Row {
            round: 1,
            offered,
            moved: taken,
        },
        Row {
            round: 2,
            offered: second,
            moved: beats,
        },
        Row {
            round: 3,
            offered: third,
            moved: ends,
        },
    ])?;
    Ok(())
}
