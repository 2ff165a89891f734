//! Bursts whose rules, addresses and lanes are known from the standard's formulas and figures.
ghost use Rattle.std.specs.Prelude.{◌<◌};
ghost use Rattle.axi_beats.specs.Bus.{IsBusWidth};
ghost use Rattle.burst_address.specs.Legal.{IsLegal};

use crate::{BurstRule, beat_address, burst_count, lanes, laws, laws_of_lanes, legal};
use axi_beats::{Addr, Burst, is_bus_width};
use std::process::Abort;

fn request(burst: Burst, addr: u64, len: u8, size: u8) -> Addr {
    Addr {
        addr,
        len,
        size,
        burst,
        ..Addr::default()
    }
}

/// Checks that `bus` is a bus's width.
fn check_bus(rt: &impl Abort, bus: u8)
    ensures { IsBusWidth bus }
{
    assert!(rt; is_bus_width(bus));
}

/// Checks that the request is legal on the bus.
fn check_legal(rt: &impl Abort, a: &Addr, bus: u8)
    requires { IsBusWidth bus }
    ensures { IsLegal a.now bus }
{
    assert!(rt; legal(a, bus).is_ok());
}

/// The address of beat `n`, and its lanes on the bus.
fn beat(rt: &impl Abort, a: &Addr, n: u32, bus: u8) -> (u64, u8, u8) {
    assert!(rt; n <= u32::from(a.len));
    assert!(rt; a.addr < 1 << 63);
    check_bus(rt, bus);
    check_legal(rt, a, bus);
    check_legal(rt, a, 128);
    let (lower, upper) = lanes(a, n, bus);
    (beat_address(a, n), lower, upper)
}

#[test]
fn judges_by_the_first_broken_rule(rt: HostRuntime) {
    laws();
    laws_of_lanes();
    let size = Err(BurstRule::Size);
    let length = Err(BurstRule::Length);
    let start = Err(BurstRule::WrapAlign);
    let page = Err(BurstRule::Page);
    for (a, bus, want) in [
        (request(Burst::Incr, 0, 0, 7), 64, size),
        (request(Burst::Incr, 0, 0, 8), 128, size),
        (request(Burst::Incr, 0xfff, 0, 0), 4, Ok(())),
        (request(Burst::Incr, 0xfff, 1, 0), 4, page),
        (request(Burst::Incr, 0xffc, 0, 2), 4, Ok(())),
        (request(Burst::Incr, 0xffc, 1, 2), 4, page),
        (request(Burst::Incr, 0xffe, 0, 2), 4, Ok(())),
        (request(Burst::Incr, 0x3, 255, 4), 16, Ok(())),
        (request(Burst::Incr, 0x10, 255, 4), 16, page),
        (request(Burst::Incr, u64::MAX, 0, 0), 4, Ok(())),
        (request(Burst::Incr, u64::MAX, 1, 0), 4, page),
        (request(Burst::Fixed, 0xfff, 15, 2), 4, Ok(())),
        (request(Burst::Fixed, 0, 16, 2), 4, length),
        (request(Burst::Wrap, 0x34, 15, 2), 4, Ok(())),
        (request(Burst::Wrap, 0, 0, 2), 4, length),
        (request(Burst::Wrap, 0, 2, 2), 4, length),
        (request(Burst::Wrap, 0x36, 3, 2), 4, start),
        (request(Burst::Wrap, 0x36, 2, 2), 4, length),
        (request(Burst::Wrap, 0x36, 2, 3), 4, size),
    ] {
        check_bus(&rt, bus);
        assert_eq!(rt; legal(&a, bus), want, "{a:?} on {bus}");
    }
}

#[test]
fn follows_the_standard(rt: HostRuntime) {
    let unaligned = request(Burst::Incr, 0x1003, 3, 2);
    let narrow = request(Burst::Incr, 0x07, 2, 2);
    let wrapping = request(Burst::Wrap, 0x34, 7, 2);
    let wrapping_wide = request(Burst::Wrap, 0x04, 3, 2);
    let fixed = request(Burst::Fixed, 0x1003, 2, 1);
    let bytes = request(Burst::Incr, 0xf00, 255, 0);
    let last = request(Burst::Incr, 0x7fff_ffff_ffff_ffff, 0, 7);
    for (a, n, bus, want) in [
        (unaligned, 0, 4, (0x1003, 3, 3)),
        (unaligned, 1, 4, (0x1004, 0, 3)),
        (unaligned, 3, 4, (0x100c, 0, 3)),
        (unaligned, 3, 128, (0x100c, 12, 15)),
        (narrow, 0, 8, (0x07, 7, 7)),
        (narrow, 1, 8, (0x08, 0, 3)),
        (narrow, 2, 8, (0x0c, 4, 7)),
        (wrapping, 0, 4, (0x34, 0, 3)),
        (wrapping, 2, 4, (0x3c, 0, 3)),
        (wrapping, 3, 4, (0x20, 0, 3)),
        (wrapping, 7, 4, (0x30, 0, 3)),
        (wrapping_wide, 0, 8, (0x04, 4, 7)),
        (wrapping_wide, 1, 8, (0x08, 0, 3)),
        (wrapping_wide, 2, 8, (0x0c, 4, 7)),
        (wrapping_wide, 3, 8, (0x00, 0, 3)),
        (fixed, 0, 16, (0x1003, 3, 3)),
        (fixed, 2, 16, (0x1003, 3, 3)),
        (bytes, 0, 64, (0xf00, 0, 0)),
        (bytes, 255, 64, (0xfff, 63, 63)),
        (last, 0, 128, (0x7fff_ffff_ffff_ffff, 127, 127)),
    ] {
        assert_eq!(rt; beat(&rt, &a, n, bus), want, "beat {n} of {a:?} on {bus}");
    }
}

#[test]
fn counts_the_valid_bytes_of_a_burst(rt: HostRuntime) {
    for (a, want) in [
        (request(Burst::Incr, 0x1003, 3, 2), 1 + 4 + 4 + 4),
        (request(Burst::Incr, 0x0f, 1, 7), 113 + 128),
        (request(Burst::Incr, 0xf00, 255, 0), 256),
        (request(Burst::Wrap, 0x34, 7, 2), 32),
        (request(Burst::Fixed, 0x1001, 2, 2), 3 + 3 + 3),
    ] {
        assert!(rt; a.addr < 1 << 63);
        check_legal(&rt, &a, 128);
        assert_eq!(rt; burst_count(&a), want, "{a:?}");
    }
}
