//! Short histories. A row for each rule stands with the traces of `trace_judge`.

use crate::{PortChecker, RuleFault};
use axi_beats::WBeat;
use axi_history::{PortKind, PortRound, RawAddr, RawB, RawR, Seen};
use std::process::Abort;

const PORT: PortKind = PortKind {
    lite: false,
    bus: 4,
};

const LITE: PortKind = PortKind { lite: true, bus: 4 };

/// A round in which no channel offers anything.
fn quiet() -> PortRound {
    PortRound {
        kind: PORT,
        ..PortRound::default()
    }
}

/// A beat that is offered and taken.
fn taken<T>(beat: T) -> Option<Seen<T>> {
    Some(Seen { beat, taken: true })
}

/// A beat that is offered and not taken.
fn waits<T>(beat: T) -> Option<Seen<T>> {
    Some(Seen { beat, taken: false })
}

fn aw(aw: Option<Seen<RawAddr>>) -> PortRound {
    PortRound { aw, ..quiet() }
}

fn w(w: Option<Seen<WBeat>>) -> PortRound {
    PortRound { w, ..quiet() }
}

fn b(b: Option<Seen<RawB>>) -> PortRound {
    PortRound { b, ..quiet() }
}

fn ar(ar: Option<Seen<RawAddr>>) -> PortRound {
    PortRound { ar, ..quiet() }
}

fn r(r: Option<Seen<RawR>>) -> PortRound {
    PortRound { r, ..quiet() }
}

/// The address of an INCR burst of words.
fn words(id: u32, addr: u64, beats: u8) -> RawAddr {
    RawAddr {
        id,
        addr,
        len: beats.saturating_sub(1),
        size: 2,
        burst: 1,
        ..RawAddr::default()
    }
}

fn data(strobe: u128, last: bool) -> WBeat {
    WBeat {
        strobe,
        last,
        ..WBeat::default()
    }
}

fn response(id: u32, resp: u8) -> RawB {
    RawB {
        id,
        resp,
        ..RawB::default()
    }
}

fn read(id: u32, last: bool) -> RawR {
    RawR {
        id,
        last,
        ..RawR::default()
    }
}

/// A round that transfers the address and the data of a write of one word.
fn write(id: u32) -> PortRound {
    PortRound {
        w: taken(data(15, true)),
        ..aw(taken(words(id, 0, 1)))
    }
}

/// Gives the checker one round.
fn give(rt: &impl Abort, checker: &mut PortChecker, round: &PortRound) -> Result<(), RuleFault> {
    assert!(rt; checker.rounds < 1 << 31);
    assert!(rt; round.kind == checker.port);
    if let Some(seen) = round.aw {
        assert!(rt; seen.beat.addr < 1 << 63);
    }
    if let Some(seen) = round.ar {
        assert!(rt; seen.beat.addr < 1 << 63);
    }
    checker.round(round)
}

/// A trace line can't have such a strobe. What is told once is told of each later round too.
#[test]
fn a_strobe_beyond_the_bus_is_told(rt: HostRuntime) {
    let mut checker = PortChecker::new(rt.alloc(), PORT);
    let broken = Err(RuleFault::Broken {
        rule: 10,
        channel: 2,
    });
    assert_eq!(rt; give(&rt, &mut checker, &w(taken(data(16, true)))), Ok(()));
    assert_eq!(rt; give(&rt, &mut checker, &aw(taken(words(1, 0, 1)))), broken);
    assert_eq!(rt; give(&rt, &mut checker, &quiet()), broken);
}

#[test]
fn counts_what_is_unanswered(rt: HostRuntime) {
    let mut checker = PortChecker::new(rt.alloc(), PORT);
    let mut counts = |round: PortRound| {
        let _answer = give(&rt, &mut checker, &round);
        checker.unanswered()
    };
    assert_eq!(rt; counts(w(taken(data(15, true)))), (0, 0));
    assert_eq!(rt; counts(aw(taken(words(1, 0, 1)))), (1, 0));
    assert_eq!(rt; counts(aw(waits(words(2, 0, 1)))), (1, 0));
    assert_eq!(rt; counts(aw(taken(words(2, 0, 1)))), (2, 0));
    assert_eq!(rt; counts(ar(taken(words(1, 0, 2)))), (2, 1));
    assert_eq!(rt; counts(r(taken(read(1, false)))), (2, 1));
    assert_eq!(rt; counts(b(taken(response(1, 2)))), (1, 1));
    assert_eq!(rt; counts(r(taken(read(1, true)))), (1, 0));
    assert_eq!(rt; counts(ar(taken(words(3, 4092, 2)))), (1, 0));
    assert_eq!(rt; counts(ar(taken(words(3, 0, 1)))), (1, 0));
}

/// On AXI4-Lite data may come before its address, and two beats break a rule.
#[test]
fn counts_what_is_unanswered_on_axi4_lite(rt: HostRuntime) {
    let mut checker = PortChecker::new(rt.alloc(), LITE);
    let mut counts = |round: PortRound| {
        let _answer = give(
            &rt,
            &mut checker,
            &PortRound {
                kind: LITE,
                ..round
            },
        );
        checker.unanswered()
    };
    assert_eq!(rt; counts(w(taken(data(0, true)))), (0, 0));
    assert_eq!(rt; counts(aw(taken(words(0, 2, 1)))), (1, 0));
    assert_eq!(rt; counts(ar(taken(words(0, 0, 1)))), (1, 1));
    assert_eq!(rt; counts(b(taken(response(0, 2)))), (0, 1));
    assert_eq!(rt; counts(r(taken(read(0, true)))), (0, 0));
    assert_eq!(rt; counts(ar(taken(words(0, 0, 2)))), (0, 0));
    assert_eq!(rt; counts(ar(taken(words(0, 0, 1)))), (0, 0));
}

/// A hundred thousand rounds, with little outstanding, take seconds.
#[test]
fn judges_a_long_trace(rt: HostRuntime) {
    let mut checker = PortChecker::new(rt.alloc(), PORT);
    let request = PortRound {
        ar: taken(words(1, 0, 1)),
        ..write(2)
    };
    let answer = PortRound {
        b: taken(response(2, 0)),
        r: taken(read(1, true)),
        ..quiet()
    };
    for _ in 0..50_000 {
        assert_eq!(rt; give(&rt, &mut checker, &request), Ok(()));
        assert_eq!(rt; give(&rt, &mut checker, &answer), Ok(()));
    }
    assert_eq!(rt; checker.unanswered(), (0, 0));
}
