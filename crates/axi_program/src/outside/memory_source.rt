//! A source that lies in memory.

ghost use Rattle.std.specs.Prelude.{◌≡◌, ◌<◌, ◌≤◌, ◌++◌, length, take, drop, is_err, IfOk, OnErr};
ghost use Rattle.std.specs.Io.{ReadsAtMost};
ghost use Rattle.std.specs.Io.KnownBytes.{ReadConsumes};
ghost use Rattle.axi_program.specs.Faults.{HasCause};
ghost use Rattle.axi_program.specs.Devices.{new_call_faults, is_due, read_count, after_read};

use super::call_faults::CallFaults;
use super::source::{Failed, Source};
use std::marker::Model;

/// Bytes in memory, read a few at a time, with failures at the calls that it was told.
///
/// A clause sees it as the bytes that are left, the most that one read moves, and the faults of its calls.
#[derive(Drop)]
pub struct MemorySource {
    bytes: Vec<u8>,
    next: usize,
    most: usize,
    call_faults: CallFaults,
}

impl Model for MemorySource {
    ghost use Rattle.std.specs.Prelude.{◌<◌, ◌≤◌, drop, vec_len};
    ghost use Rattle.axi_program.specs.Devices.{Input, IsWithin};

    ghost Value = { Input };

    ghost view = { λ s. record { left = drop s.next s.bytes.items; most = s.most; call_faults = s.call_faults } };

    ghost invariant = { λ s. IsWithin s.most s.next (vec_len s.bytes) };
}

impl MemorySource {
    /// A source of `bytes` whose call number i, from 1, fails where i is in `fail`, and which moves at most `most`
    /// bytes, at least 1, in each read.
    pub fn new(bytes: Vec<u8>, fail: Vec<u64>, most: usize) -> MemorySource
        requires { 0 < most }
        ensures { result ≡ record { left = bytes.items; most = most; call_faults = new_call_faults fail.items } }
    {
        MemorySource {
            bytes,
            next: 0,
            most,
            call_faults: CallFaults::new(fail),
        }
    }
}

impl Source for MemorySource {
    ghost use Rattle.std.specs.Prelude.{Some};

    ghost left = { λ s. Some s.left };

    ghost faults = { λ s. s.call_faults.faults };

    fn read(&mut self, buf: &mut [u8]) -> Result<usize, Failed>
        ensures bound { ReadsAtMost result buf.new }
        ensures bytes { ReadConsumes (Some self.old.left) (Some self.new.left) result buf.new }
        ensures cause { HasCause self.old.call_faults.faults self.new.call_faults.faults result }

        // Which calls fail, and how many bytes the others move.
        ensures fails { is_err result ≡ is_due self.old.call_faults }
        ensures count { IfOk result (λ n. n ≡ read_count self.old (length buf.old)) }
        ensures after { self.new ≡ after_read self.old (length buf.old) }
        ensures front { IfOk result (λ n. buf.new ≡ take n self.old.left ++ drop n buf.old) }
        ensures kept { OnErr result (buf.new ≡ buf.old) }
    {
        let fails = self.call_faults.is_due();
        self.call_faults.count(fails);
        if fails {
            return Err(Failed);
        }
        let rest = &self.bytes[self.next..];
        let count = self.most.min(buf.len()).min(rest.len());
        copy_front(buf, rest, count);
        self.next += count;
        Ok(count)
    }
}

/// Copies so many bytes to the front of a buffer.
pub fn copy_front(to: &mut [u8], from: &[u8], count: usize)
    requires room { count ≤ length to.old }
    requires there { count ≤ length from.now }
    ensures { to.new ≡ take count from.now ++ drop count to.old }
{
    to[..count].copy_from_slice(&from[..count]);
}
