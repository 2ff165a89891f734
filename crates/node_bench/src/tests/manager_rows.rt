//! A manager issues, sends and notes as its script and its delays say.

ghost use Rattle.std.specs.Prelude.{◌≡◌, ◌==◌, ◌<◌, ◌-◌, ◌||◌, ◌++◌, ◌∷◌, [], All};
ghost use Rattle.std.specs.Prelude.{IfOk, IsTrue, OnOk, length, slice_get};
ghost use Rattle.axi_beats.specs.Bus.{IsBusWidth};
ghost use Rattle.burst_address.specs.Legal.{IsLegal};
ghost use Rattle.manager_node.specs.Script.{awaited};

use crate::{Bench, Benched, Row};
use axi_beats::{Addr, BBeat, Burst, Lanes, NoMemory, RBeat, Resp, Tag, WBeat};
use axi_link::{Link, Out};
use burst_address::legal;
use manager_node::{ManagerNode, Script, Txn, WriteByte, crosses_threads};
use std::alloc::Global;
use std::process::Abort;
use std::test::Fail;

impl Benched for ManagerNode {
    fn may_decide(&self, round: u64, links: &[Link]) -> bool {
        self.can_decide(round, links)
    }
}

/// An INCR request of transaction `number` for `len + 1` beats of 4 bytes.
fn request(number: u32, id: u32, addr: u64, len: u8) -> Addr {
    Addr {
        id,
        addr,
        len,
        size: 2,
        burst: Burst::Incr,
        tag: tag(number),
    }
}

fn tag(number: u32) -> Tag {
    Tag {
        txn: number,
        low: 0,
        high: 0,
    }
}

/// A byte that is written.
fn on(value: u8) -> WriteByte {
    WriteByte {
        value,
        strobed: true,
    }
}

/// A byte that stays as it is, with a value that isn't to be sent.
fn off(value: u8) -> WriteByte {
    WriteByte {
        value,
        strobed: false,
    }
}

/// Adds a transaction with its bytes, which is legal on a bus of 4 bytes.
fn push(rt: &impl Abort, script: &mut Script, txn: Txn, bytes: &[WriteByte]) -> Result<(), NoMemory>
    requires few { length script.old < 100 }
    requires after { IsTrue (txn.after == length script.old
        || txn.after == awaited (slice_get script.old (length script.old - 1))) }
    ensures ok { OnOk result
        (script.new ≡ script.old ++ record { txn = txn; bytes = bytes.now } ∷ []) }
    ensures legal { IsLegal txn.request 4 }
{
    assert!(rt; txn.request.addr < 1 << 63);
    assert!(rt; legal(&txn.request, 4).is_ok());
    assert!(rt; legal(&txn.request, 128).is_ok());
    let count = txn.sent_count();
    assert!(rt; bytes.len() == count);
    script.push(txn, bytes)
}

/// A transaction of this request.
fn txn(write: bool, request: Addr, after: u32) -> Txn
    ensures { result.after ≡ after }
{
    Txn {
        number: request.tag.txn,
        write,
        request,
        after,
    }
}

/// A write of two beats from an unaligned address, one of another ID, and a read that waits for both.
fn script(rt: &(impl Alloc<A = Global> + Abort)) -> Result<Script, NoMemory>
    ensures legal { IfOk result (All (λ item. IsLegal item.txn.request 4)) }
{
    let mut script = Script::new(rt.alloc());
    let first = [on(0xa0), on(0xb0), off(0xb1), on(0xb2), on(0xb3)];
    push(
        rt,
        &mut script,
        txn(true, request(1, 1, 0x13, 1), 0),
        &first,
    )?;
    let second = [on(0xc0), on(0xc1), on(0xc2), on(0xc3)];
    push(
        rt,
        &mut script,
        txn(true, request(2, 2, 0x20, 0), 0),
        &second,
    )?;
    push(rt, &mut script, txn(false, request(3, 2, 0x12, 0), 2), &[])?;
    Ok(script)
}

/// A data beat of a transaction with these bytes on lanes 0 to 3.
fn data(number: u32, bytes: [u8; 4], strobe: u128, last: bool) -> WBeat {
    WBeat {
        lanes: lanes(bytes),
        strobe,
        last,
        tag: tag(number),
    }
}

fn lanes(bytes: [u8; 4]) -> Lanes {
    let mut lanes = Lanes::zero();
    lanes.set(0, bytes[0]);
    lanes.set(1, bytes[1]);
    lanes.set(2, bytes[2]);
    lanes.set(3, bytes[3]);
    lanes
}

/// A round in which the manager moves this, and nothing comes.
fn moves(round: u64, moved: Out) -> Row {
    Row {
        round,
        offered: Out::default(),
        moved,
    }
}

/// The rounds in which it issues and sends its writes: AW in 1 and 4, W in 2, 5 and 6.
fn write_rows() -> [Row; 5] {
    let mut first = Out::default();
    first.aw_put = Some((0, request(1, 1, 0x13, 1)));
    let mut beat = Out::default();
    beat.w_put = Some((0, data(1, [0, 0, 0, 0xa0], 0b1000, false)));
    let mut second = Out::default();
    second.aw_put = Some((0, request(2, 2, 0x20, 0)));
    let mut last = Out::default();
    last.w_put = Some((0, data(1, [0xb0, 0, 0xb2, 0xb3], 0b1101, true)));
    let mut other = Out::default();
    other.w_put = Some((0, data(2, [0xc0, 0xc1, 0xc2, 0xc3], 0b1111, true)));
    let mut room = Out::default();
    room.w_take = Some(0);
    [
        moves(1, first),
        moves(2, beat),
        moves(4, second),
        moves(5, last),
        Row {
            round: 6,
            offered: room,
            moved: other,
        },
    ]
}

/// A response with this ID that comes on the link.
fn responds(id: u32, resp: Resp) -> Out {
    let mut out = Out::default();
    out.b_put = Some((
        0,
        BBeat {
            id,
            resp,
            ..BBeat::default()
        },
    ));
    out
}

/// The taking of a response.
fn takes_response() -> Out {
    Out {
        b_take: Some(0),
        ..Out::default()
    }
}

/// The read's beat that comes on the link.
fn reads() -> Out {
    Out {
        r_put: Some((
            0,
            RBeat {
                id: 2,
                lanes: lanes([9, 8, 0x77, 0x78]),
                last: true,
                ..RBeat::default()
            },
        )),
        ..Out::default()
    }
}

/// A round in which this comes, and the manager moves that.
fn comes(round: u64, offered: Out, moved: Out) -> Row {
    Row {
        round,
        offered,
        moved,
    }
}

/// The rounds in which it is answered, each answer a round after it came, and issues its read: B in 8
/// and 10, AR in 11, R in 13.
fn answer_rows() -> [Row; 6] {
    let read = Out {
        ar_put: Some((0, request(3, 2, 0x12, 0))),
        ..Out::default()
    };
    let got = Out {
        r_take: Some(0),
        ..Out::default()
    };
    [
        comes(7, responds(2, Resp::SlvErr), Out::default()),
        comes(8, responds(1, Resp::Okay), takes_response()),
        moves(10, takes_response()),
        moves(11, read),
        comes(12, reads(), Out::default()),
        moves(13, got),
    ]
}

/// Checks the rounds and the response that a manager notes of the transaction at a place.
fn check_answer(
    rt: &impl Abort,
    manager: &ManagerNode,
    place: u32,
    rounds: (u64, u64),
    resp: Resp,
) {
    assert!(rt; place < manager.script().len());
    let answer = manager.answer(place).expect(rt, "it is answered");
    assert_eq!(rt; (answer.issued(), answer.answered()), rounds, "at {place}");
    assert!(rt; answer.beats() == 1, "at {place}");
    assert_eq!(rt; answer.resp(0), resp, "at {place}");
}

/// Two delays for what it puts, the second of two rounds, and one of a round for what it takes.
#[test]
fn requests_and_answers_wait_as_the_delays_say(rt: HostRuntime) -> Result<(), Fail> {
    let manager = ManagerNode::new(rt.alloc(), script(&rt)?, 0, 4, &[1], &[0, 2])?;
    crosses_threads(&manager);
    let mut bench = Bench::new(rt.alloc(), manager, 1, 2)?;
    bench.run(&write_rows())?;
    bench.run(&answer_rows())?;
    assert!(rt; bench.node.done());
    check_answer(&rt, &bench.node, 0, (1, 10), Resp::Okay);
    check_answer(&rt, &bench.node, 1, (4, 8), Resp::SlvErr);
    check_answer(&rt, &bench.node, 2, (11, 13), Resp::Okay);
    assert!(rt; 2 < bench.node.script().len());
    let read = bench.node.answer(2).expect(&rt, "it is answered");
    assert_eq!(rt; read.bytes(), [0x77, 0x78].as_slice());
    Ok(())
}
