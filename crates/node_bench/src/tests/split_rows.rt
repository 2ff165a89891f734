//! Bursts go on beat by beat, and their answers come back as theirs.

use crate::{Bench, Benched, Row};
use axi_beats::{Addr, BBeat, Burst, RBeat, Resp, WBeat};
use axi_link::{Link, Out};
use split_node::{SplitNode, crosses_threads};
use std::test::Fail;

impl Benched for SplitNode {
    fn may_decide(&self, _round: u64, links: &[Link]) -> bool {
        self.can_decide(links)
    }
}

/// A request with ID 5 for a burst of 4 bytes a beat.
fn request(addr: u64, len: u8, burst: Burst) -> Addr {
    Addr {
        id: 5,
        addr,
        len,
        size: 2,
        burst,
        ..Addr::default()
    }
}

fn part(addr: u64) -> Addr {
    request(addr, 0, Burst::Incr)
}

fn data(last: bool) -> WBeat {
    WBeat {
        last,
        ..WBeat::default()
    }
}

fn response(resp: Resp) -> BBeat {
    BBeat {
        id: 5,
        resp,
        ..BBeat::default()
    }
}

fn read_data(resp: Resp, last: bool) -> RBeat {
    RBeat {
        id: 5,
        resp,
        last,
        ..RBeat::default()
    }
}

// A read address comes, and its first part goes on.
fn read_begins(round: u64, request: Addr, first: Addr) -> Row {
    Row {
        round,
        offered: Out {
            ar_put: Some((0, request)),
            ..Out::default()
        },
        moved: Out {
            ar_take: Some(0),
            ar_put: Some((1, first)),
            ..Out::default()
        },
    }
}

// A further part of a read goes on.
fn read_goes_on(round: u64, next: Addr) -> Row {
    Row {
        round,
        offered: Out::default(),
        moved: Out {
            ar_put: Some((1, next)),
            ..Out::default()
        },
    }
}

// An answer to a part comes, and goes up with this `last`.
fn read_is_answered(round: u64, resp: Resp, last: bool) -> Row {
    Row {
        round,
        offered: Out {
            r_put: Some((1, read_data(resp, true))),
            ..Out::default()
        },
        moved: Out {
            r_take: Some(1),
            r_put: Some((0, read_data(resp, last))),
            ..Out::default()
        },
    }
}

/// An INCR burst of three beats from 0x1006 on: its second beat is at the next multiple of 4. A second
/// write waits until the parts of the first one have gone on.
#[test]
fn a_write_goes_on_beat_by_beat(rt: HostRuntime) -> Result<(), Fail> {
    let mut bench = Bench::new(rt.alloc(), SplitNode::new(0, 1), 2, 4)?;
    crosses_threads(&bench.node);
    let begins = Out {
        aw_put: Some((0, request(0x1006, 2, Burst::Incr))),
        w_put: Some((0, data(false))),
        ..Out::default()
    };
    let first = Out {
        aw_take: Some(0),
        aw_put: Some((1, part(0x1006))),
        w_take: Some(0),
        w_put: Some((1, data(true))),
        ..Out::default()
    };
    let further = Out {
        aw_put: Some((0, request(0x2000, 0, Burst::Incr))),
        ..Out::default()
    };
    let second = Out {
        aw_put: Some((1, part(0x1008))),
        ..Out::default()
    };
    let third = Out {
        aw_put: Some((1, part(0x100c))),
        ..Out::default()
    };
    let fourth = Out {
        aw_take: Some(0),
        aw_put: Some((1, part(0x2000))),
        ..Out::default()
    };
    bench.run(&[
        Row {
            round: 1,
            offered: begins,
            moved: first,
        },
        Row {
            round: 2,
            offered: further,
            moved: second,
        },
        Row {
            round: 3,
            offered: Out::default(),
            moved: third,
        },
        Row {
            round: 4,
            offered: Out::default(),
            moved: fourth,
        },
    ])?;
    Ok(())
}

/// The one response to a write of two beats is the worse one, which came first.
#[test]
fn a_write_has_its_worst_response(rt: HostRuntime) -> Result<(), Fail> {
    let mut bench = Bench::new(rt.alloc(), SplitNode::new(0, 1), 2, 4)?;
    let begins = Out {
        aw_put: Some((0, request(0x1000, 1, Burst::Incr))),
        ..Out::default()
    };
    let first = Out {
        aw_take: Some(0),
        aw_put: Some((1, part(0x1000))),
        ..Out::default()
    };
    let refused = Out {
        b_put: Some((1, response(Resp::SlvErr))),
        ..Out::default()
    };
    let second = Out {
        aw_put: Some((1, part(0x1004))),
        b_take: Some(1),
        ..Out::default()
    };
    let done = Out {
        b_put: Some((1, response(Resp::Okay))),
        ..Out::default()
    };
    let answer = Out {
        b_take: Some(1),
        b_put: Some((0, response(Resp::SlvErr))),
        ..Out::default()
    };
    bench.run(&[
        Row {
            round: 1,
            offered: begins,
            moved: first,
        },
        Row {
            round: 2,
            offered: refused,
            moved: second,
        },
        Row {
            round: 3,
            offered: done,
            moved: answer,
        },
    ])?;
    Ok(())
}

/// A WRAP burst of four beats from 0x1008 on goes back to 0x1000 after 0x100c. Each of its beats has its
/// own response, and the last one alone has RLAST.
#[test]
fn a_wrapping_read_goes_round(rt: HostRuntime) -> Result<(), Fail> {
    let mut bench = Bench::new(rt.alloc(), SplitNode::new(0, 1), 2, 4)?;
    bench.run(&[
        read_begins(1, request(0x1008, 3, Burst::Wrap), part(0x1008)),
        read_goes_on(2, part(0x100c)),
        read_goes_on(3, part(0x1000)),
        read_goes_on(4, part(0x1004)),
        read_is_answered(5, Resp::Okay, false),
        read_is_answered(6, Resp::DecErr, false),
        read_is_answered(7, Resp::Okay, false),
        read_is_answered(8, Resp::Okay, true),
    ])?;
    Ok(())
}

/// Each beat of a FIXED burst is at its start.
#[test]
fn a_fixed_read_stays_at_its_start(rt: HostRuntime) -> Result<(), Fail> {
    let mut bench = Bench::new(rt.alloc(), SplitNode::new(0, 1), 2, 4)?;
    bench.run(&[
        read_begins(1, request(0x2001, 1, Burst::Fixed), part(0x2001)),
        read_goes_on(2, part(0x2001)),
    ])?;
    Ok(())
}
