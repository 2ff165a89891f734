//! The rules of one address, 3 to 8 and on AXI4-Lite 3, and of one W beat by its address, 9 and 10.
ghost use Rattle.std.specs.Prelude.{◌≡◌, ◌<◌, ◌≤◌, ◌^◌, ◌==◌, true, IsTrue, Option, None};
ghost use Rattle.axi_beats.specs.Bus.{IsBusWidth};
ghost use Rattle.axi_history.specs.PortRules.{request_of, address_rules, least_broken, keeps_address_rules, has_last_where_due, has_strobes_on_valid_lanes, strobes_within};
ghost use Rattle.lite_rules.specs.LiteRules.{is_lite_access};

use axi_beats::{Addr, Burst, WBeat};
use axi_history::RawAddr;
use burst_address::{BurstRule, lanes, legal};

/// The request that an address makes. A burst code that has no kind breaks rule 3, so that the kind
/// that it is given here doesn't count.
fn request(a: &RawAddr) -> Addr
    ensures { result ≡ request_of a.now }
{
    Addr {
        id: a.id,
        addr: a.addr,
        len: a.len,
        size: a.size,
        burst: Burst::from_code(a.burst).unwrap_or(Burst::Wrap),
        tag: a.tag,
    }
}

/// The first rule of 3 to 8 that an address breaks on a bus of this many bytes.
pub(crate) fn address_fault(a: &RawAddr, bus: u8) -> Option<u8>
    requires { IsBusWidth bus }
    ensures { result ≡ least_broken (address_rules bus a.now) }
{
    if Burst::from_code(a.burst).is_none() {
        return Some(3);
    }
    match legal(&request(a), bus) {
        Err(BurstRule::Size) => Some(4),
        Err(BurstRule::Length) => Some(5),
        Err(BurstRule::WrapAlign) => Some(6),
        Err(BurstRule::Page) => Some(7),
        Ok(()) if a.lock => Some(8),
        Ok(()) => None,
    }
}

/// Whether an address is that of an AXI4-Lite access on a bus of this many bytes. (Rule 3 of AXI4-Lite; Arm IHI 0022, AXI4-Lite.)
pub(crate) fn is_lite_access(a: &RawAddr, bus: u8) -> bool
    requires { IsBusWidth bus }
    ensures { result ≡ is_lite_access bus a.now }
{
    a.id == 0 && a.len == 0 && has_size_of_bus(a.size, bus) && a.burst == 1 && !a.lock
}

/// Whether beats of this AxSIZE are as wide as the bus. A great size is told first, so that the shift
/// fits.
#[tactic(auto, using(crate::proofs::AddressLemmas::great_size))]
fn has_size_of_bus(size: u8, bus: u8) -> bool
    requires { bus ≤ 128 }
    ensures { result ≡ (2 ^ size == bus) }
{
    size <= 7 && 1 << size == bus
}

/// Whether beat `n` of an address, counted from 0, has `last` where it is due, and isn't beyond the
/// last one. (Rule 9; Arm IHI 0022, write data channel.)
pub(crate) fn last_fits(a: &RawAddr, n: u32, w: &WBeat) -> bool
    ensures value { result ≡ has_last_where_due a.now n w.now }
    ensures beat { IsTrue result → n ≤ a.now.len }
    ensures len { a.now.len < 256 }
{
    let len = u32::from(a.len);
    n <= len && w.last == (n == len)
}

/// Whether the strobes of beat `n` of an address stand on its valid lanes alone. (Rule 10; Arm IHI
/// 0022, write strobes.)
pub(crate) fn strobes_fit(a: &RawAddr, n: u32, w: &WBeat, bus: u8) -> bool
    requires beat { n ≤ a.now.len }
    requires start { a.now.addr < 2 ^ 63 }
    requires bus { IsBusWidth bus }
    requires legal { keeps_address_rules bus a.now ≡ true }
    ensures { result ≡ has_strobes_on_valid_lanes bus a.now n w.now }
{
    let (lower, upper) = lanes(&request(a), n, bus);
    are_within(lower, upper, w.strobe)
}

/// Whether no strobe stands below lane `lower` or above lane `upper`. Strobe n is bit n of the number,
/// so that shifts drop the strobes of the lower lanes.
fn are_within(lower: u8, upper: u8, strobe: u128) -> bool
    requires lower { lower < 128 }
    requires upper { upper < 128 }
    ensures { result ≡ strobes_within lower upper strobe }
{
    strobe >> lower << lower == strobe && strobe >> upper <= 1
}
