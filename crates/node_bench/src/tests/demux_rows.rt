//! Requests go by the port of their address, and an ID keeps to its port while it is unanswered.

ghost use Rattle.std.specs.Prelude.{◌<◌, ◌≤◌};

use crate::{Bench, Benched, Row};
use address_map::{AddressMap, Region};
use axi_beats::{Addr, BBeat, RBeat, WBeat};
use axi_link::{Link, Out};
use demux_node::{DemuxNode, crosses_threads};
use std::alloc::Global;
use std::test::Fail;

impl Benched for DemuxNode {
    fn may_decide(&self, _round: u64, links: &[Link]) -> bool {
        self.can_decide(links)
    }
}

const PAGE: u64 = 4096;

fn request(id: u32, addr: u64) -> Addr {
    Addr {
        id,
        addr,
        ..Addr::default()
    }
}

fn data(last: bool) -> WBeat {
    WBeat {
        last,
        ..WBeat::default()
    }
}

fn response(id: u32) -> BBeat {
    BBeat {
        id,
        ..BBeat::default()
    }
}

fn read_data(id: u32, last: bool) -> RBeat {
    RBeat {
        id,
        last,
        ..RBeat::default()
    }
}

// A read address of this ID comes, and goes on by this link.
fn goes_by(round: u64, link: u32, id: u32, addr: u64) -> Row {
    Row {
        round,
        offered: Out {
            ar_put: Some((0, request(id, addr))),
            ..Out::default()
        },
        moved: Out {
            ar_take: Some(0),
            ar_put: Some((link, request(id, addr))),
            ..Out::default()
        },
    }
}

// Read data comes on a link, and nothing moves.
fn stays(round: u64, link: u32, beat: RBeat) -> Row {
    Row {
        round,
        offered: Out {
            r_put: Some((link, beat)),
            ..Out::default()
        },
        moved: Out::default(),
    }
}

// The read data above is taken, and in its place comes that of this link.
fn comes_from(round: u64, link: u32, beat: RBeat) -> Row {
    Row {
        round,
        offered: Out {
            r_take: Some(0),
            ..Out::default()
        },
        moved: Out {
            r_take: Some(link),
            r_put: Some((0, beat)),
            ..Out::default()
        },
    }
}

/// Page 0 goes to link 1, and all other addresses to link 2. The second write has the ID of the first one
/// and goes to the other link, so it waits until the round after the response.
#[test]
fn an_id_keeps_to_its_port(rt: HostRuntime) -> Result<(), Fail> {
    let page = Region {
        base: 0,
        size: PAGE,
        port: 0,
    };
    let regions = Vec::from_slice(rt.alloc(), &[page])?;
    let map = AddressMap::new(rt.alloc(), regions)?;
    let mut bench = Bench::new(rt.alloc(), DemuxNode::new(0, &[1, 2], map), 3, 2)?;
    crosses_threads(&bench.node);
    let sent = Row {
        round: 1,
        offered: Out {
            aw_put: Some((0, request(3, 0))),
            ar_put: Some((0, request(3, PAGE))),
            ..Out::default()
        },
        moved: Out {
            aw_take: Some(0),
            aw_put: Some((1, request(3, 0))),
            ar_take: Some(0),
            ar_put: Some((2, request(3, PAGE))),
            ..Out::default()
        },
    };
    let stalled = Row {
        round: 2,
        offered: Out {
            aw_put: Some((0, request(3, PAGE))),
            w_put: Some((0, data(true))),
            r_put: Some((2, read_data(3, true))),
            ..Out::default()
        },
        moved: Out {
            w_take: Some(0),
            w_put: Some((1, data(true))),
            r_take: Some(2),
            r_put: Some((0, read_data(3, true))),
            ..Out::default()
        },
    };
    let answered = Row {
        round: 4,
        offered: Out {
            b_put: Some((1, response(3))),
            ..Out::default()
        },
        moved: Out {
            b_take: Some(1),
            b_put: Some((0, response(3))),
            ..Out::default()
        },
    };
    let released = Row {
        round: 5,
        offered: Out::default(),
        moved: Out {
            aw_take: Some(0),
            aw_put: Some((2, request(3, PAGE))),
            ..Out::default()
        },
    };
    bench.run(&[sent, stalled, answered, released])?;
    Ok(())
}

// Pages 0 and 1 go to links 1 and 2, and all other addresses to link 3.
fn two_pages(alloc: Global, depth: u8) -> Result<Bench<DemuxNode>, Fail>
    requires least { 0 < depth }
    requires most { depth ≤ 16 }
{
    let first = Region {
        base: 0,
        size: PAGE,
        port: 0,
    };
    let second = Region {
        base: PAGE,
        port: 1,
        ..first
    };
    let regions = Vec::from_slice(alloc, &[first, second])?;
    let map = AddressMap::new(alloc, regions)?;
    Ok(Bench::new(alloc, DemuxNode::new(0, &[1, 2, 3], map), 4, depth)?)
}

/// The second write has an ID and a port of its own. It waits until the round after the last data of the
/// first one, whose data goes by the port of its address.
#[test]
fn data_is_open_at_one_port(rt: HostRuntime) -> Result<(), Fail> {
    let mut bench = two_pages(rt.alloc(), 2)?;
    let sent = Row {
        round: 1,
        offered: Out {
            aw_put: Some((0, request(1, 0))),
            ..Out::default()
        },
        moved: Out {
            aw_take: Some(0),
            aw_put: Some((1, request(1, 0))),
            ..Out::default()
        },
    };
    let stalled = Row {
        round: 2,
        offered: Out {
            aw_put: Some((0, request(2, PAGE))),
            w_put: Some((0, data(false))),
            ..Out::default()
        },
        moved: Out {
            w_take: Some(0),
            w_put: Some((1, data(false))),
            ..Out::default()
        },
    };
    let closed = Row {
        round: 4,
        offered: Out {
            w_put: Some((0, data(true))),
            ..Out::default()
        },
        moved: Out {
            w_take: Some(0),
            w_put: Some((1, data(true))),
            ..Out::default()
        },
    };
    let released = Row {
        round: 5,
        offered: Out::default(),
        moved: Out {
            aw_take: Some(0),
            aw_put: Some((2, request(2, PAGE))),
            ..Out::default()
        },
    };
    bench.run(&[sent, stalled, closed, released])?;
    Ok(())
}

/// The upper link has room for one beat. Port 1 answers first. Where all ports offer a beat, port 2, which is
/// that of the addresses of no page, has its turn next, then port 0, then port 1. What port 1 offers behind its
/// last beat belongs to no request, and stays.
#[test]
fn ports_answer_by_turns(rt: HostRuntime) -> Result<(), Fail> {
    let mut bench = two_pages(rt.alloc(), 1)?;
    let first = Row {
        round: 4,
        offered: Out {
            r_put: Some((2, read_data(2, false))),
            ..Out::default()
        },
        moved: Out {
            r_take: Some(2),
            r_put: Some((0, read_data(2, false))),
            ..Out::default()
        },
    };
    bench.run(&[
        goes_by(1, 1, 1, 0),
        goes_by(2, 2, 2, PAGE),
        goes_by(3, 3, 4, 2 * PAGE),
        first,
        stays(5, 1, read_data(1, true)),
        stays(6, 3, read_data(4, true)),
        stays(7, 2, read_data(2, true)),
        comes_from(8, 3, read_data(4, true)),
        comes_from(9, 1, read_data(1, true)),
        comes_from(10, 2, read_data(2, true)),
        stays(11, 2, read_data(2, true)),
    ])?;
    // Nor is there a write for a response.
    let unasked = Out {
        b_put: Some((1, response(1))),
        r_take: Some(0),
        ..Out::default()
    };
    bench.run(&[Row {
        round: 12,
        offered: unasked,
        moved: Out::default(),
    }])?;
    Ok(())
}
