//! Beats go on where there is room.

use crate::{Bench, Benched, Row};
use axi_beats::{Addr, BBeat, RBeat, WBeat};
use axi_link::{Link, Out};
use slice_node::{SliceNode, crosses_threads};
use std::test::Fail;

impl Benched for SliceNode {
    fn may_decide(&self, _round: u64, links: &[Link]) -> bool {
        self.can_decide(links)
    }
}

fn request(id: u32) -> Addr {
    Addr {
        id,
        ..Addr::default()
    }
}

/// All five channels at once, between links of depth 1, and a second write that waits for room.
#[test]
fn every_beat_goes_on_a_round_later(rt: HostRuntime) -> Result<(), Fail> {
    let mut bench = Bench::new(rt.alloc(), SliceNode::new(0, 1), 2, 1)?;
    crosses_threads(&bench.node);
    let offered = Out {
        aw_put: Some((0, request(1))),
        w_put: Some((0, WBeat::default())),
        b_put: Some((1, BBeat::default())),
        ar_put: Some((0, request(2))),
        r_put: Some((1, RBeat::default())),
        ..Out::default()
    };
    let moved = Out {
        aw_take: Some(0),
        aw_put: Some((1, request(1))),
        w_take: Some(0),
        w_put: Some((1, WBeat::default())),
        b_take: Some(1),
        b_put: Some((0, BBeat::default())),
        ar_take: Some(0),
        ar_put: Some((1, request(2))),
        r_take: Some(1),
        r_put: Some((0, RBeat::default())),
    };
    let second = Out {
        aw_put: Some((0, request(3))),
        ..Out::default()
    };
    let room = Out {
        aw_take: Some(1),
        ..Out::default()
    };
    let late = Out {
        aw_take: Some(0),
        aw_put: Some((1, request(3))),
        ..Out::default()
    };
    let quiet = Out::default();
    bench.run(&[
        Row {
            round: 2,
            offered,
            moved,
        },
        Row {
            round: 3,
            offered: second,
            moved: quiet,
        },
        Row {
            round: 5,
            offered: room,
            moved: late,
        },
    ])?;
    Ok(())
}
