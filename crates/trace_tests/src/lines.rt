// Trace lines and answer lines worked by hand.

ghost use Rattle.std.specs.Prelude.{◌≡◌, ◌<◌, All, IfOk, length};
ghost use Rattle.burst_address.specs.Legal.{IsLegal};

use axi_beats::{Addr, Burst, Lanes, NoMemory, RBeat, Resp};
use axi_link::{Link, Out};
use burst_address::legal;
use manager_node::{ManagerNode, Script, Txn};
use node_core::{Step, set_put};
use std::alloc::Global;
use std::process::Abort;
use std::test::Fail;
use trace_text::{LineBuffer, read_trace_line, render_answers, render_round};

/// Fails where a line isn't read, or isn't written again as it stands.
fn compare_line(rt: &impl Abort, buffer: &mut LineBuffer, line: &'static str) -> Result<(), Fail> {
    let round = read_trace_line(line).map_err(|_| line)?;
    render_round(buffer, &round);
    let (front, end) = buffer.bytes().split_at(line.len());
    assert!(rt; front == line.as_bytes(), "at {line}");
    assert!(rt; end == b"\n".as_slice(), "at {line}");
    Ok(())
}

#[test]
fn trace_lines_are_read_and_written(rt: HostRuntime) -> Result<(), Fail> {
    let lines = [
        "2 0 axi 4 +1,10,0,2,1,0,1:0:0 - - - -",
        "3 0 axi 4 - +11223344,f,1,1:0:0 - - -",
        "5 0 axi 4 - - +1,0,1:0:0 - -",
        "7 0 axi 4 - - - +2,10,0,2,1,0,2:0:0 -",
        "9 0 axi 4 - - - - +2,11223344,0,1,2:0:0",
        "4 2 lite 4 - - - +0,0,0,2,1,0,1:2:2 -",
        "5 2 lite 4 - - - +0,0,0,2,1,0,1:3:3 -",
        "6 2 lite 4 - - - - +0,abababab,0,1,1:2:2",
        "7 2 lite 4 - - - - +0,abababab,0,1,1:3:3",
        "4 1 axi 8 - +0000000001020304,f0,1,1:0:0 - - -",
        "9223372036854775807 4095 axi 4 =4294967295,7fffffffffffffff,255,7,3,1,4294967295:127:127 - =0,3,0:0:0 - -",
        "1 0 axi 128 - - - - -",
    ];
    let mut buffer = LineBuffer::new(rt.alloc())?;
    for line in lines {
        compare_line(&rt, &mut buffer, line)?;
    }
    Ok(())
}

#[test]
fn other_lines_are_refused(rt: HostRuntime) {
    let lines = [
        "",
        "02 0 axi 4 - - - - -",
        "+2 0 axi 4 - - - - -",
        "2  0 axi 4 - - - - -",
        " 2 0 axi 4 - - - - -",
        "2 0 axi 4 - - - - - ",
        "2 0 axi 4 - - - -",
        "2 0 axi 4 - - - - - -",
        "0 0 axi 4 - - - - -",
        "9223372036854775808 0 axi 4 - - - - -",
        "2 4096 axi 4 - - - - -",
        "2 0 AXI 4 - - - - -",
        "2 0 axi 5 - - - - -",
        "2 0 lite 16 - - - - -",
        "2 0 axi 4 1,10,0,2,1,0,1:0:0 - - - -",
        "2 0 axi 4 +4294967296,10,0,2,1,0,1:0:0 - - - -",
        "2 0 axi 4 +1,1A,0,2,1,0,1:0:0 - - - -",
        "2 0 axi 4 +1,010,0,2,1,0,1:0:0 - - - -",
        "2 0 axi 4 +1,8000000000000000,0,2,1,0,1:0:0 - - - -",
        "2 0 axi 4 +1,10,256,2,1,0,1:0:0 - - - -",
        "2 0 axi 4 +1,10,0,8,1,0,1:0:0 - - - -",
        "2 0 axi 4 +1,10,0,2,4,0,1:0:0 - - - -",
        "2 0 axi 4 +1,10,0,2,1,2,1:0:0 - - - -",
        "2 0 axi 4 +1,10,0,2,1,0,1:128:0 - - - -",
        "2 0 axi 4 +1,10,0,2,1,0 - - - -",
        "3 0 axi 4 - +1122334,f,1,1:0:0 - - -",
        "3 0 axi 4 - +112233445,f,1,1:0:0 - - -",
        "3 0 axi 4 - +1122334A,f,1,1:0:0 - - -",
        "3 0 axi 4 - +11223344,10,1,1:0:0 - - -",
        "5 0 axi 4 - - +1,4,1:0:0 - -",
        "5 0 axi 4 - - - - +1,11223344,0,1,1:0:0\r",
    ];
    for line in lines {
        assert!(rt; read_trace_line(line).is_err(), "at {line}");
    }
}

/// A script of one read, which is legal on a bus of 4 bytes.
fn one_read(rt: &impl Abort, alloc: Global, request: Addr) -> Result<Script, NoMemory>
    ensures count { IfOk result (λ script. length script ≡ 1) }
    ensures legal { IfOk result (λ script. All (λ item. IsLegal item.txn.request 4) script) }
{
    assert!(rt; request.addr < 1 << 63);
    assert!(rt; legal(&request, 4).is_ok());
    assert!(rt; legal(&request, 128).is_ok());
    let mut script = Script::new(alloc);
    let txn = Txn {
        number: 7,
        write: false,
        request,
        after: 0,
    };
    script.push(txn, &[])?;
    Ok(script)
}

/// A manager on a bus of 4 bytes that reads once.
fn reader(rt: &impl Abort, alloc: Global, request: Addr) -> Result<ManagerNode, NoMemory>
    ensures lower { IfOk result (λ manager. manager.state.lower ≡ 0) }
    ensures count { IfOk result (λ manager. length manager.state.script ≡ 1) }
{
    let script = one_read(rt, alloc, request)?;
    ManagerNode::new(alloc, script, 0, 4, &[0], &[0])
}

/// Decides a round in which the link below offers this data beat.
fn decide(
    manager: &mut ManagerNode,
    alloc: Global,
    round: u64,
    beat: Option<RBeat>,
) -> Result<(), NoMemory>
    requires counted { 0 < round }
    requires lower { manager.old.state.lower ≡ 0 }
    ensures lower { manager.new.state.lower ≡ manager.old.state.lower }
    ensures script { manager.new.state.script ≡ manager.old.state.script }
{
    let mut link = Link::new(alloc, 2)?;
    let mut lower = Out::default();
    set_put(&mut lower.r_put, 0, beat.as_ref());
    link.commit(0, &Out::default(), &lower);
    let links = [link];
    manager.decide(round, &links);
    Ok(())
}

/// A data beat with ID 3 that has `first` and each lane's number, added up, on its lanes.
fn data(first: u8, resp: Resp) -> Option<RBeat> {
    let mut lanes = Lanes::zero();
    for lane in 0..128 {
        lanes.set(lane, first.wrapping_add(lane));
    }
    Some(RBeat {
        id: 3,
        lanes,
        resp,
        ..RBeat::default()
    })
}

/// Writes the line of a read of two beats, which is issued in round 1 and answered in rounds 2 and 3.
fn render_read(
    rt: &impl Abort,
    alloc: Global,
    line: &mut LineBuffer,
    request: Addr,
) -> Result<(), NoMemory> {
    let mut manager = reader(rt, alloc, request)?;
    decide(&mut manager, alloc, 1, None)?;
    decide(&mut manager, alloc, 2, data(0x10, Resp::Okay))?;
    decide(&mut manager, alloc, 3, data(0x20, Resp::SlvErr))?;
    let txn = manager.script().txn(0);
    let answer = manager.answer(0).expect(rt, "it is answered");
    assert!(rt; txn.request.addr < 1 << 63);
    assert!(rt; legal(&txn.request, 128).is_ok());
    assert!(rt; answer.beats() <= u32::from(txn.request.len) + 1);
    assert!(rt; answer.bytes().len() <= 4096);
    render_answers(line, "m", txn, answer);
    Ok(())
}

#[test]
fn each_beat_of_a_read_shows_its_valid_bytes(rt: HostRuntime) -> Result<(), Fail> {
    let mut line = LineBuffer::new(rt.alloc())?;
    let unaligned = Addr {
        id: 3,
        addr: 0x11,
        len: 1,
        size: 2,
        burst: Burst::Incr,
        ..Addr::default()
    };
    render_read(&rt, rt.alloc(), &mut line, unaligned)?;
    assert_eq!(rt;
        line.bytes(),
        b"7 read m 1 3 okay:111213 slverr:20212223\n".as_slice()
    );

    let fixed = Addr {
        burst: Burst::Fixed,
        ..unaligned
    };
    render_read(&rt, rt.alloc(), &mut line, fixed)?;
    assert_eq!(rt;
        line.bytes(),
        b"7 read m 1 3 okay:111213 slverr:212223\n".as_slice()
    );
    Ok(())
}
