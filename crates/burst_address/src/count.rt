//! How many valid bytes a beat has, and how many a burst. (Arm IHI 0022, burst address structure.)
ghost use Rattle.std.specs.Prelude.{◌≡◌, ◌<◌, ◌≤◌, ◌^◌, length};
ghost use Rattle.burst_address.specs.Bytes.{beat_bytes, burst_bytes};
ghost use Rattle.burst_address.specs.Legal.{IsLegal};

use crate::address::lanes;
use axi_beats::Addr;

/// The number of valid bytes of beat `n`, counted from 0, of a burst that is legal on the widest bus
/// and starts below 2^63. It is the same on each bus on which the burst is legal.
pub fn beat_count(a: &Addr, n: u32) -> usize
    requires beat { n ≤ a.now.len }
    requires start { a.now.addr < 2 ^ 63 }
    requires legal { IsLegal a.now 128 }
    ensures value { result ≡ length (beat_bytes a.now n) }
    ensures most { result ≤ 128 }
{
    let (low, high) = lanes(a, n, 128);
    usize::from(high - low) + 1
}

/// The number of valid bytes of a burst that is legal on the widest bus and starts below 2^63.
pub fn burst_count(a: &Addr) -> usize
    requires start { a.now.addr < 2 ^ 63 }
    requires legal { IsLegal a.now 128 }
    ensures { result ≡ length (burst_bytes a.now) }
{
    let mut count = 0;
    for n in 0..u32::from(a.len) + 1 {
        count += beat_count(a, n);
    }
    count
}
