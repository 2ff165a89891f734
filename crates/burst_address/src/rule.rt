//! Which bursts are legal. (Arm IHI 0022, burst length, burst size, burst type, address structure.)
ghost use Rattle.std.specs.Prelude.{◌≡◌, ◌↔◌, ◌+◌, ◌*◌, ◌<◌, ◌≤◌, IsOk, IfErr, Some};
ghost use Rattle.axi_beats.specs.Bus.{IsBusWidth};
ghost use Rattle.burst_address.specs.Formulas.{aligned, size_of, beats_of};
ghost use Rattle.burst_address.specs.Legal.{is_too_wide, is_length_of, is_start_of, is_in_page, broken_rule, IsLegal};

use crate::address::{aligned_address, beat_size};
use axi_beats::{Addr, Burst};

/// A rule of the standard that a burst breaks. The order counts: the first broken one is told.
#[derive(Clone, Copy, Debug, PartialEq, Eq)]
pub enum BurstRule {
    /// A beat is wider than the bus.
    Size,
    /// The number of beats isn't allowed for the kind: INCR 1 to 256, FIXED 1 to 16, WRAP 2, 4, 8
    /// or 16.
    Length,
    /// A WRAP burst doesn't start at a multiple of its beats' size.
    WrapAlign,
    /// An INCR burst touches two pages of 4096 bytes.
    Page,
}

/// Whether the burst is legal on a bus of `bus` bytes, which is 4, 8, 16, 32, 64 or 128.
///
/// # Errors
///
/// The first rule that it breaks, in the order of [`BurstRule`].
pub fn legal(a: &Addr, bus: u8) -> Result<(), BurstRule>
    requires { IsBusWidth bus }
    ensures legal { IsOk result ↔ IsLegal a.now bus }
    ensures broken { IfErr result (λ rule. broken_rule a.now bus ≡ Some rule) }
{
    if too_wide(a, bus) {
        Err(BurstRule::Size)
    } else if !length_allowed(a) {
        Err(BurstRule::Length)
    } else if !start_allowed(a) {
        Err(BurstRule::WrapAlign)
    } else if !in_page(a) {
        Err(BurstRule::Page)
    } else {
        Ok(())
    }
}

/// Whether a beat has more bytes than the bus. A great size is told first, so that the shift fits.
#[tactic(auto, using(crate::proofs::Numbers::power_above))]
fn too_wide(a: &Addr, bus: u8) -> bool
    requires { bus ≤ 128 }
    ensures { result ≡ is_too_wide a.now bus }
{
    a.size > 7 || 1 << a.size > bus
}

/// Whether the kind allows as many beats. AxLEN can't say more than the 256 that INCR allows.
fn length_allowed(a: &Addr) -> bool
    ensures { result ≡ is_length_of a.now.burst (beats_of a.now) }
{
    match a.burst {
        Burst::Fixed => a.len <= 15,
        Burst::Incr => a.len <= u8::MAX,
        Burst::Wrap => matches!(a.len, 1 | 3 | 7 | 15),
    }
}

/// Whether the burst may start where it does: of a WRAP burst the start is aligned to its beats' size.
fn start_allowed(a: &Addr) -> bool
    requires { size_of a.now ≤ 128 }
    ensures { result ≡ is_start_of a.now.burst (size_of a.now) a.now.addr }
{
    match a.burst {
        Burst::Fixed | Burst::Incr => true,
        Burst::Wrap => aligned_address(a.addr, a.size) == a.addr,
    }
}

/// Whether the burst touches one page alone. Only INCR is asked: a FIXED or WRAP burst that keeps the
/// rules before this one lies in one aligned block of at most 2048 bytes. The page's offset is
/// compared, since the end of the burst may lie beyond the highest address.
fn in_page(a: &Addr) -> bool
    requires { size_of a.now ≤ 128 }
    ensures { result ≡ is_in_page a.now.burst (size_of a.now) (beats_of a.now) a.now.addr }
{
    match a.burst {
        Burst::Fixed | Burst::Wrap => true,
        Burst::Incr => {
            let offset = aligned_address(a.addr, a.size) % 4096;
            offset + (u64::from(a.len) + 1) * beat_size(a.size) <= 4096
        }
    }
}
