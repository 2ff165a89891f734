//! A sink that lies in memory.

ghost use Rattle.std.specs.Prelude.{◌≡◌, ◌<◌, ◌≤◌, [], length, is_err, IfOk};
ghost use Rattle.std.specs.Io.KnownBytes.{WriteAppends};
ghost use Rattle.axi_program.specs.Faults.{HasCause};
ghost use Rattle.axi_program.specs.Devices.{new_call_faults, write_fails, write_count, after_write};

use super::call_faults::CallFaults;
use super::sink::Sink;
use super::source::Failed;
use axi_beats::NoMemory;
use std::alloc::Global;
use std::marker::Model;

/// Room for so many bytes in memory, written a few at a time, with failures at the calls that it was told.
///
/// A clause sees it as the bytes that were written, its capacity, the most that one write takes, and the faults of its
/// calls.
#[derive(Drop)]
pub struct MemorySink {
    bytes: Vec<u8>,
    capacity: usize,
    most: usize,
    call_faults: CallFaults,
}

impl Model for MemorySink {
    ghost use Rattle.std.specs.Prelude.{◌<◌, ◌≤◌, vec_len, vec_capacity};
    ghost use Rattle.axi_program.specs.Devices.{Output, IsReserved};

    ghost Value = { Output };

    ghost view = { λ s. record { written = s.bytes.items; capacity = s.capacity; most = s.most; call_faults = s.call_faults } };

    ghost invariant = { λ s. IsReserved s.most (vec_len s.bytes) s.capacity (vec_capacity s.bytes) };
}

impl MemorySink {
    /// An empty sink for `capacity` bytes whose call number i, from 1, fails where i is in `fail`, and which takes at
    /// most `most` bytes, at least 1, in each write. It takes its memory here, and none in a write.
    pub fn new(
        alloc: Global,
        capacity: usize,
        fail: Vec<u64>,
        most: usize,
    ) -> Result<MemorySink, NoMemory>
        requires { 0 < most }
        ensures { IfOk result (λ sink.
            sink ≡ record { written = []; capacity = capacity; most = most; call_faults = new_call_faults fail.items }) }
    {
        Ok(MemorySink {
            bytes: Vec::with_capacity(alloc, capacity)?,
            capacity,
            most,
            call_faults: CallFaults::new(fail),
        })
    }

    /// The bytes that were written.
    pub fn bytes(&self) -> &[u8]
        ensures { result.now ≡ self.now.written }
    {
        self.bytes.as_slice()
    }
}

impl Sink for MemorySink {
    ghost use Rattle.std.specs.Prelude.{Some};

    ghost written = { λ s. Some s.written };

    ghost faults = { λ s. s.call_faults.faults };

    fn write(&mut self, piece: &[u8]) -> Result<usize, Failed>
        requires { 0 < length piece.now }
        ensures some { IfOk result (λ n. 0 < n) }
        ensures bound { IfOk result (λ n. n ≤ length piece.now) }
        ensures bytes { WriteAppends (Some self.old.written) (Some self.new.written) result piece.now }
        ensures cause { HasCause self.old.call_faults.faults self.new.call_faults.faults result }

        // Which calls fail, and how many bytes the others take.
        ensures fails { is_err result ≡ write_fails self.old }
        ensures count { IfOk result (λ n. n ≡ write_count self.old (length piece.now)) }
        ensures after { self.new ≡ after_write self.old piece.now }
    {
        let free = self.capacity - self.bytes.len();
        let fails = self.call_faults.is_due() || free == 0;
        self.call_faults.count(fails);
        if fails {
            return Err(Failed);
        }
        let count = self.most.min(piece.len()).min(free);
        self.bytes.extend_from_slice(&piece[..count]).unwrap();
        Ok(count)
    }
}
