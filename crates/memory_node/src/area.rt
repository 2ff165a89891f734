//! `Area`, seen in clauses as the record of a memory's bytes.

ghost use Rattle.std.specs.Prelude.{◌≡◌, ◌+◌, ◌&&◌, IfOk, nat_le, nat_lt};
ghost use Rattle.memory_node.specs.MemoryArea.{area_of, is_in_some, is_inside};
ghost use Rattle.memory_node.specs.Status.{is_okay, read_status, status_but_in, write_status};

use crate::config::{MemoryConfig, Range};
use axi_beats::{NoMemory, Resp};
use std::alloc::Global;
use std::marker::Model;

/// The bytes that a memory has, and the ranges of those that can't be written or can't be read.
#[derive(Drop)]
pub struct Area {
    config: MemoryConfig,
    read_only: Vec<Range>,
    hole: Vec<Range>,
}

impl Model for Area {
    ghost use Rattle.memory_node.specs.MemoryArea.{MemoryArea};

    ghost Value = { MemoryArea };

    ghost use Rattle.memory_node.specs.AreaInside.{area_view};

    ghost view = { area_view };
}

impl Area {
    /// The bytes of a memory of this range, bus and fill value, with these ranges of bytes that can't be
    /// written, and these that can't be read.
    pub fn new(
        alloc: Global,
        config: MemoryConfig,
        read_only: &[Range],
        hole: &[Range],
    ) -> Result<Area, NoMemory>
        ensures { IfOk result (λ area. area ≡ area_of config read_only.now hole.now) }
    {
        Ok(Area {
            config,
            read_only: Vec::from_slice(alloc, read_only)?,
            hole: Vec::from_slice(alloc, hole)?,
        })
    }

    /// The width of the bus in bytes.
    pub fn bus(&self) -> u8
        ensures { result ≡ self.now.bus }
    {
        self.config.bus
    }

    /// The value of bytes that nothing has written.
    pub fn fill(&self) -> u8
        ensures { result ≡ self.now.fill }
    {
        self.config.fill
    }

    /// Whether a byte address lies in the memory.
    pub fn is_inside(&self, address: u64) -> bool
        ensures { result ≡ is_inside self.now address }
    {
        is_in(self.config.base, self.config.size, address)
    }

    /// The status of the byte at an address, where it is written.
    pub fn write_status(&self, address: u64) -> Resp
        ensures { result ≡ write_status self.now address }
    {
        status_but_in(
            self.is_inside(address),
            is_in_some(&self.read_only, address),
        )
    }

    /// The status of the byte at an address, where it is read.
    pub fn read_status(&self, address: u64) -> Resp
        ensures { result ≡ read_status self.now address }
    {
        status_but_in(self.is_inside(address), is_in_some(&self.hole, address))
    }
}

/// Whether an address is one of the `size` addresses from `base` on.
fn is_in(base: u64, size: u64, address: u64) -> bool
    ensures { result ≡ (nat_le base address && nat_lt address (base + size)) }
{
    base <= address && address - base < size
}

/// Whether an address is one of some range.
fn is_in_some(ranges: &[Range], address: u64) -> bool
    ensures { result ≡ is_in_some ranges.now address }
{
    ranges
        .iter()
        .any(|range| is_in(range.base, range.size, address))
}

/// The status of a byte by whether it is in the memory, and in a range whose bytes are refused.
fn status_but_in(inside: bool, refused: bool) -> Resp
    ensures { result ≡ status_but_in inside refused }
{
    if !inside {
        return Resp::DecErr;
    }
    if refused { Resp::SlvErr } else { Resp::Okay }
}

/// Whether a byte of this status may be written or read.
pub fn is_okay(status: Resp) -> bool
    ensures { result ≡ is_okay status }
{
    match status {
        Resp::Okay => true,
        Resp::SlvErr | Resp::DecErr => false,
    }
}
