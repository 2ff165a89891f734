//! A source and a sink that never fail.

ghost use Rattle.std.specs.Prelude.{◌≡◌, ◌<◌, ◌≤◌, ◌++◌, length, take, drop, min, None, Ok, Some, IfOk};
ghost use Rattle.std.specs.Io.{ReadsAtMost};
ghost use Rattle.std.specs.Io.KnownBytes.{ReadConsumes, WriteAppends};
ghost use Rattle.axi_program.specs.Faults.{HasCause};

use super::memory_source::copy_front;
use super::sink::Sink;
use super::source::{Failed, Source};
use std::marker::Model;

/// Bytes in memory, of which each read moves as many as there is room for.
///
/// A clause sees it as the bytes that are left.
#[derive(Drop)]
pub struct SureSource {
    bytes: Vec<u8>,
    next: usize,
}

impl Model for SureSource {
    ghost use Rattle.std.specs.Prelude.{ℕ, List, ◌≤◌, drop, vec_len};

    ghost Value = { List ℕ };

    ghost view = { λ s. drop s.next s.bytes.items };

    ghost invariant = { λ s. s.next ≤ vec_len s.bytes };
}

impl SureSource {
    /// A source of these bytes.
    pub fn new(bytes: Vec<u8>) -> SureSource
        ensures { result ≡ bytes.items }
    {
        SureSource { bytes, next: 0 }
    }
}

impl Source for SureSource {
    ghost use Rattle.std.specs.Prelude.{Some};

    ghost left = { λ s. Some s };

    ghost faults = { λ _. 0 };

    fn read(&mut self, buf: &mut [u8]) -> Result<usize, Failed>
        ensures bound { ReadsAtMost result buf.new }
        ensures bytes { ReadConsumes (Some self.old) (Some self.new) result buf.new }
        ensures cause { HasCause 0 0 result }

        // It never fails, and moves as many bytes as there are, or as there is room for.
        ensures count { result ≡ Ok (min (length buf.old) (length self.old)) }
        ensures after { self.new ≡ drop (min (length buf.old) (length self.old)) self.old }
        ensures front { IfOk result (λ n. buf.new ≡ take n self.old ++ drop n buf.old) }
    {
        let rest = &self.bytes[self.next..];
        let count = buf.len().min(rest.len());
        copy_front(buf, rest, count);
        self.next += count;
        Ok(count)
    }
}

/// Takes each piece whole and keeps nothing of it. It tells nothing of the bytes.
#[derive(Debug, Clone, Copy, Default, PartialEq, Eq)]
pub struct SureSink;

impl SureSink {
    /// The sink.
    pub fn new() -> SureSink {
        SureSink
    }
}

impl Sink for SureSink {
    ghost use Rattle.std.specs.Prelude.{None};

    ghost written = { λ _. None };

    ghost faults = { λ _. 0 };

    fn write(&mut self, piece: &[u8]) -> Result<usize, Failed>
        requires { 0 < length piece.now }
        ensures some { IfOk result (λ n. 0 < n) }
        ensures bound { IfOk result (λ n. n ≤ length piece.now) }
        ensures bytes { WriteAppends None None result piece.now }
        ensures cause { HasCause 0 0 result }

        // It never fails.
        ensures count { result ≡ Ok (length piece.now) }
    {
        Ok(piece.len())
    }
}
