//! The source and the sink over the runtime's streams.

ghost use Rattle.std.specs.Prelude.{◌≡◌, ◌<◌, ◌≤◌, length, is_err, IfOk, if◌then◌else◌};
ghost use Rattle.std.specs.Io.{ReadsAtMost};
ghost use Rattle.std.specs.Io.KnownBytes.{ReadConsumes, WriteAppends};
ghost use Rattle.axi_program.specs.Faults.{HasCause, next_count};

use super::sink::Sink;
use super::source::{Failed, Source};
use std::io::{Read, Write};
use std::marker::Model;

/// The program's input: a reader of the runtime, each of whose errors is counted. It passes on the reader's bytes, and
/// tells what is left where the reader does.
///
/// A clause sees it as the reader and the count of its faults.
#[derive(Drop)]
pub struct StdinSource<R: Read> {
    input: R,
    faults: u64,
}

impl<R: Read> Model for StdinSource<R> {
    ghost use Rattle.axi_program.specs.Standard.{Counted};

    ghost Value = { Counted R };

    ghost view = { λ s. record { stream = s.input; faults = s.faults } };
}

impl<R: Read> StdinSource<R> {
    /// A source over the runtime's reader.
    pub fn new(input: R) -> StdinSource<R>
        ensures { result ≡ record { stream = input; faults = 0 } }
    {
        StdinSource { input, faults: 0 }
    }
}

impl<R: Read> Source for StdinSource<R> {
    ghost left = { λ s. R.remaining s.stream };

    ghost faults = { λ s. s.faults };

    fn read(&mut self, buf: &mut [u8]) -> Result<usize, Failed>
        ensures bound { ReadsAtMost result buf.new }
        ensures bytes { ReadConsumes (R.remaining self.old.stream) (R.remaining self.new.stream) result buf.new }
        ensures cause { HasCause self.old.faults self.new.faults result }
        ensures count { self.new.faults ≡ (if is_err result then next_count self.old.faults else self.old.faults) }
    {
        match self.input.read(buf) {
            Ok(count) => Ok(count),
            Err(_) => {
                self.faults = self.faults.saturating_add(1);
                Err(Failed)
            }
        }
    }
}

/// The program's output: a writer of the runtime, each of whose errors is counted, and each write that takes nothing.
/// It passes on each piece, and tells what was written where the writer does.
///
/// A clause sees it as the writer and the count of its faults.
#[derive(Drop)]
pub struct StdoutSink<W: Write> {
    output: W,
    faults: u64,
}

impl<W: Write> Model for StdoutSink<W> {
    ghost use Rattle.axi_program.specs.Standard.{Counted};

    ghost Value = { Counted W };

    ghost view = { λ s. record { stream = s.output; faults = s.faults } };
}

impl<W: Write> StdoutSink<W> {
    /// A sink over the runtime's writer.
    pub fn new(output: W) -> StdoutSink<W>
        ensures { result ≡ record { stream = output; faults = 0 } }
    {
        StdoutSink { output, faults: 0 }
    }
}

impl<W: Write> Sink for StdoutSink<W> {
    ghost written = { λ s. W.contents s.stream };

    ghost faults = { λ s. s.faults };

    fn write(&mut self, piece: &[u8]) -> Result<usize, Failed>
        requires { 0 < length piece.now }
        ensures some { IfOk result (λ n. 0 < n) }
        ensures bound { IfOk result (λ n. n ≤ length piece.now) }
        ensures bytes { WriteAppends (W.contents self.old.stream) (W.contents self.new.stream) result piece.now }
        ensures cause { HasCause self.old.faults self.new.faults result }
        ensures count { self.new.faults ≡ (if is_err result then next_count self.old.faults else self.old.faults) }
    {
        match self.output.write(piece) {
            Ok(count) if count > 0 => Ok(count),
            _ => {
                self.faults = self.faults.saturating_add(1);
                Err(Failed)
            }
        }
    }
}
