//! `ByteStore`, seen in clauses as the kept lines, their bytes and the fill value.

ghost use Rattle.std.specs.Prelude.{◌≡◌, ◌<◌, ◌≤◌, ◌+◌, ◌%◌, ◌^◌, length, fold};
ghost use Rattle.std.specs.Prelude.{slice_index, slice_set, AllPairs, Contains, IfOk, IfSome, IsTrue};
ghost use Rattle.flight.specs.Entries.{place_of};
ghost use Rattle.burst_address.specs.Lanes.{is_strobed, lane_bytes, strobed_lanes};
ghost use Rattle.memory_node.specs.Beats.{with_bytes};
ghost use Rattle.memory_node.specs.Store.{new_store, byte_at, lanes_between, line_number};

use axi_beats::{Lanes, NoMemory, WBeat};
use std::alloc::Global;
use std::marker::Model;

/// The bytes of the lines that a run may write, and the value of all others.
#[derive(Drop)]
pub struct ByteStore {
    // The numbers of the lines, ascending, and 128 bytes for each of them in this order.
    lines: Vec<u64>,
    bytes: Vec<u8>,
    fill: u8,
}

impl Model for ByteStore {
    ghost use Rattle.memory_node.specs.Store.{Store};

    ghost Value = { Store };

    ghost use Rattle.memory_node.specs.StoreInside.{store_view, IsByteStore};

    ghost view = { store_view };

    ghost invariant = { IsByteStore };
}

impl ByteStore {
    /// A store that keeps these lines of 128 bytes, whose numbers ascend, and has written none: all
    /// bytes have the fill value.
    pub fn new(alloc: Global, touched: &[u64], fill: u8) -> Result<ByteStore, NoMemory>
        requires { AllPairs (λ a b. a < b) touched.now }
        ensures { IfOk result (λ store. store ≡ new_store touched.now fill) }
    {
        // More bytes than can be counted are more than there is memory for.
        let size = touched.len().checked_mul(128).ok_or(NoMemory)?;
        Ok(ByteStore {
            lines: Vec::from_slice(alloc, touched)?,
            bytes: Vec::from_elem(alloc, fill, size)?,
            fill,
        })
    }

    /// The byte at an address.
    pub fn byte_at(&self, address: u64) -> u8
        ensures { result ≡ byte_at self.now address }
    {
        self.byte_in(line_place(&self.lines, address / 128), address)
    }

    /// Whether the line of an address is kept.
    pub fn keeps(&self, address: u64) -> bool
        ensures { IsTrue result → Contains self.now.lines (line_number address) }
    {
        line_place(&self.lines, address / 128).is_some()
    }

    /// Sets lanes to the bytes of the word at an address, which lies in one line: lane n, from lane `low`
    /// to lane `high`, to the one at `word + n`, and all others to 0.
    pub fn read_word(&self, lanes: &mut Lanes, word: u64, low: u8, high: u8)
        requires order { low ≤ high }
        requires line { word % 128 + high < 128 }
        requires end { word + high < 2 ^ 64 }
        ensures { lanes.new ≡ lanes_between self.now word low (high + 1) }
    {
        let place = line_place(&self.lines, word / 128);
        *lanes = Lanes::zero();
        for lane in low..high + 1 {
            lanes.set(lane, self.byte_in(place, word + u64::from(lane)));
        }
    }

    /// Writes the strobed bytes of a W beat to the word at an address, which lies in one line: lane
    /// n to `word + n`. Where the line isn't kept, nothing is written.
    pub fn write_word(&mut self, word: u64, bus: u8, beat: &WBeat)
        requires { word % 128 + bus ≤ 128 }
        ensures { self.new ≡ with_bytes self.old (lane_bytes word beat.now (strobed_lanes bus beat.now)) }
    {
        if let Some(place) = line_place(&self.lines, word / 128) {
            let first = 128 * place + (word % 128) as usize;
            write_lanes(&mut self.bytes, first, bus, beat);
        }
    }

    /// The byte at an address whose line has this place.
    fn byte_in(&self, place: Option<usize>, address: u64) -> u8
        requires place { place ≡ place_of (line_number address) self.now.lines }
        requires within { IfSome place (λ place. place < length self.now.lines) }
        ensures { result ≡ byte_at self.now address }
    {
        match place {
            Some(place) => self.bytes[128 * place + (address % 128) as usize],
            None => self.fill,
        }
    }
}

/// The place of a line among lines whose numbers ascend; None where it isn't among them.
fn line_place(lines: &[u64], line: u64) -> Option<usize>
    requires { AllPairs (λ a b. a < b) lines.now }
    ensures place { result ≡ place_of line lines.now }
    ensures within { IfSome result (λ place. place < length lines.now) }
{
    lines.binary_search(&line).ok()
}

/// Whether a W beat strobes a lane.
pub fn is_strobed(beat: &WBeat, lane: u8) -> bool
    requires { lane < 128 }
    ensures { result ≡ is_strobed beat.now lane }
{
    beat.strobe >> lane & 1 == 1
}

/// Writes the strobed bytes of a W beat: the one on lane n to the place `first + n`.
fn write_lanes(bytes: &mut [u8], first: usize, bus: u8, beat: &WBeat)
    requires lanes { bus ≤ 128 }
    requires bytes { first + bus ≤ length bytes.old }
    ensures { bytes.new ≡ fold
        (λ written lane. slice_set written (first + lane) (slice_index beat.now.lanes lane))
        bytes.old (strobed_lanes bus beat.now) }
{
    for lane in 0..bus {
        if is_strobed(beat, lane) {
            bytes[first + usize::from(lane)] = beat.lanes.get(lane);
        }
    }
}
