//! Inputs take turns, data follows the addresses, and answers go back by the input in their IDs.

use crate::{Bench, Benched, Row};
use axi_beats::{Addr, BBeat, RBeat, WBeat};
use axi_link::{Link, Out};
use mux_node::{MuxNode, crosses_threads};
use std::test::Fail;

impl Benched for MuxNode {
    fn may_decide(&self, _round: u64, links: &[Link]) -> bool {
        self.can_decide(links)
    }
}

fn request(id: u32) -> Addr {
    Addr {
        id,
        ..Addr::default()
    }
}

fn data(last: bool) -> WBeat {
    WBeat {
        last,
        ..WBeat::default()
    }
}

fn response(id: u32) -> BBeat {
    BBeat {
        id,
        ..BBeat::default()
    }
}

fn read_data(id: u32) -> RBeat {
    RBeat {
        id,
        ..RBeat::default()
    }
}

/// Inputs 0 and 1, on links 0 and 1, have IDs of 4 bits: ID 3 of input 1 is 19 on link 2.
#[test]
fn two_inputs_share_a_link(rt: HostRuntime) -> Result<(), Fail> {
    let mut bench = Bench::new(rt.alloc(), MuxNode::new(&[0, 1], 2, 4), 3, 4)?;
    crosses_threads(&bench.node);
    // A write of input 1, and its data before that of input 0.
    let first = Row {
        round: 1,
        offered: Out {
            aw_put: Some((1, request(3))),
            w_put: Some((0, data(true))),
            ar_put: Some((0, request(2))),
            ..Out::default()
        },
        moved: Out {
            aw_take: Some(1),
            aw_put: Some((2, request(19))),
            ar_take: Some(0),
            ar_put: Some((2, request(2))),
            ..Out::default()
        },
    };
    let second = Row {
        round: 2,
        offered: Out {
            aw_put: Some((0, request(5))),
            w_put: Some((1, data(true))),
            ..Out::default()
        },
        moved: Out {
            aw_take: Some(0),
            aw_put: Some((2, request(5))),
            w_take: Some(1),
            w_put: Some((2, data(true))),
            ..Out::default()
        },
    };
    let third = Row {
        round: 3,
        offered: Out {
            b_put: Some((2, response(19))),
            r_put: Some((2, read_data(2))),
            ..Out::default()
        },
        moved: Out {
            w_take: Some(0),
            w_put: Some((2, data(true))),
            b_take: Some(2),
            b_put: Some((1, response(3))),
            r_take: Some(2),
            r_put: Some((0, read_data(2))),
            ..Out::default()
        },
    };
    bench.run(&[first, second, third])?;
    Ok(())
}

// Write and read addresses of inputs come while those below haven't left, and nothing moves.
fn waits(round: u64, write: (u32, u32), read: (u32, u32)) -> Row {
    Row {
        round,
        offered: Out {
            aw_put: Some((write.0, request(write.1))),
            ar_put: Some((read.0, request(read.1))),
            ..Out::default()
        },
        moved: Out::default(),
    }
}

// The addresses below leave, and in their place come those of these inputs, under these IDs.
fn come(round: u64, write: (u32, u32), read: (u32, u32)) -> Row {
    Row {
        round,
        offered: Out {
            aw_take: Some(3),
            ar_take: Some(3),
            ..Out::default()
        },
        moved: Out {
            aw_take: Some(write.0),
            aw_put: Some((3, request(write.1))),
            ar_take: Some(read.0),
            ar_put: Some((3, request(read.1))),
            ..Out::default()
        },
    }
}

/// Inputs 0, 1 and 2 have IDs of 2 bits, and link 3 below has room for one address. Input 2 has written and
/// input 1 has read; where all inputs offer both, writes come from 0, 1, 2, and reads from 2, 0, 1.
#[test]
fn three_inputs_take_turns(rt: HostRuntime) -> Result<(), Fail> {
    let mut bench = Bench::new(rt.alloc(), MuxNode::new(&[0, 1, 2], 3, 2), 4, 1)?;
    let first = Row {
        round: 1,
        offered: Out {
            aw_put: Some((2, request(1))),
            ar_put: Some((1, request(1))),
            ..Out::default()
        },
        moved: Out {
            aw_take: Some(2),
            aw_put: Some((3, request(9))),
            ar_take: Some(1),
            ar_put: Some((3, request(5))),
            ..Out::default()
        },
    };
    bench.run(&[
        first,
        waits(2, (0, 2), (0, 3)),
        waits(3, (1, 3), (2, 0)),
        waits(4, (2, 0), (1, 2)),
        come(5, (0, 2), (2, 8)),
        come(6, (1, 7), (0, 3)),
        come(7, (2, 8), (1, 6)),
    ])?;
    Ok(())
}

/// IDs 12 and 13 would be those of a fourth input: such answers stay.
#[test]
fn an_answer_to_no_input_stays(rt: HostRuntime) -> Result<(), Fail> {
    let mut bench = Bench::new(rt.alloc(), MuxNode::new(&[0, 1, 2], 3, 2), 4, 1)?;
    let offered = Out {
        b_put: Some((3, response(12))),
        r_put: Some((3, read_data(13))),
        ..Out::default()
    };
    bench.run(&[
        Row {
            round: 1,
            offered,
            moved: Out::default(),
        },
        Row {
            round: 3,
            offered: Out::default(),
            moved: Out::default(),
        },
    ])?;
    Ok(())
}
