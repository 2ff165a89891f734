//! The address of each beat, and its valid lanes. (Arm IHI 0022, burst address structure.)
ghost use Rattle.std.specs.Prelude.{◌≡◌, ◌+◌, ◌*◌, ◌/◌, ◌%◌, ◌^◌, ◌<◌, ◌≤◌};
ghost use Rattle.axi_beats.specs.Bus.{IsBusWidth};
ghost use Rattle.burst_address.specs.Formulas.{aligned, incr_address, wrap_address, size_of, beats_of, beat_at};
ghost use Rattle.burst_address.specs.Lanes.{first_lane, last_lane};
ghost use Rattle.burst_address.specs.Legal.{IsLegal};

use axi_beats::{Addr, Burst};

/// The address of beat `n`, counted from 0, of a burst that is legal on the widest bus and starts
/// below 2^63, as all its beats then do.
pub fn beat_address(a: &Addr, n: u32) -> u64
    requires beat { n ≤ a.now.len }
    requires start { a.now.addr < 2 ^ 63 }
    requires legal { IsLegal a.now 128 }
    ensures address { result ≡ beat_at a.now n }
    ensures limit { result < 2 ^ 63 }
{
    match a.burst {
        Burst::Fixed => a.addr,
        Burst::Incr => ascending(a, n),
        Burst::Wrap => wrapping(a, n),
    }
}

/// The lowest and the highest valid lane of beat `n`, counted from 0, on a bus of `bus` bytes, on
/// which the burst is legal. The burst starts below 2^63.
pub fn lanes(a: &Addr, n: u32, bus: u8) -> (u8, u8)
    requires beat { n ≤ a.now.len }
    requires start { a.now.addr < 2 ^ 63 }
    requires bus { IsBusWidth bus }
    requires legal { IsLegal a.now bus }
    ensures lower { result.0 ≡ first_lane a.now n bus }
    ensures upper { result.1 ≡ last_lane a.now n bus }
{
    let address = beat_address(a, n);
    let last = aligned_address(address, a.size) + (beat_size(a.size) - 1);
    (lane(address, bus), lane(last, bus))
}

/// The lane of a byte on a bus of `bus` bytes. The width is a power of two, so a mask is the remainder.
fn lane(address: u64, bus: u8) -> u8
    requires { IsBusWidth bus }
    ensures { result ≡ address % bus }
{
    (address & u64::from(bus - 1)) as u8
}

/// The number of bytes of a beat, from AxSIZE.
#[tactic(auto, using(crate::proofs::Numbers::exponent_below))]
pub(crate) fn beat_size(size: u8) -> u64
    requires { 2 ^ size ≤ 128 }
    ensures value { result ≡ 2 ^ size }
    ensures bound { result ≤ 128 }
{
    1 << size
}

/// The address rounded down to a multiple of `2 ^ size`, the bytes of a beat.
#[tactic(auto, using(crate::proofs::Numbers::exponent_below))]
pub(crate) fn aligned_address(address: u64, size: u8) -> u64
    requires { 2 ^ size ≤ 128 }
    ensures { result ≡ aligned (2 ^ size) address }
{
    address >> size << size
}

/// The address of beat `n` of an INCR burst.
fn ascending(a: &Addr, n: u32) -> u64
    requires beat { n ≤ a.now.len }
    requires start { a.now.addr < 2 ^ 63 }
    requires size { size_of a.now ≤ 128 }
    ensures { result ≡ incr_address (size_of a.now) a.now.addr n }
{
    if n == 0 {
        a.addr
    } else {
        aligned_address(a.addr, a.size) + u64::from(n) * beat_size(a.size)
    }
}

/// The address of beat `n` of a WRAP burst, which lies in a block of all the burst's bytes.
fn wrapping(a: &Addr, n: u32) -> u64
    requires beat { n ≤ a.now.len }
    requires start { a.now.addr < 2 ^ 63 }
    requires size { size_of a.now ≤ 128 }
    ensures { result ≡ wrap_address (size_of a.now) (beats_of a.now) a.now.addr n }
{
    let block = beat_size(a.size) * (u64::from(a.len) + 1);
    let upper = a.addr / block * block + block;
    let address = ascending(a, n);
    if address < upper {
        address
    } else {
        address - block
    }
}
