//! Sources and sinks that fail, in memory and over the runtime's streams.

use super::gate::{Gate, OpenGate};
use super::memory_sink::MemorySink;
use super::memory_source::MemorySource;
use super::read_all::{InputFault, read_all};
use super::sink::Sink;
use super::source::{Failed, Source};
use super::standard::{StdinSource, StdoutSink};
use super::write_all::write_piece;
use std::alloc::Global;
use std::io;
use std::io::{ErrorKind, Read, Write};
use std::process::Abort;
use std::test::Fail;

// A reader whose first call gives four bytes and whose later ones fail.
#[derive(Drop)]
struct ShortReader {
    used: bool,
}

impl Read for ShortReader {
    fn read(&mut self, buf: &mut [u8]) -> io::Result<usize> {
        if self.used {
            return Err(ErrorKind::Other.into());
        }
        self.used = true;
        if buf.len() < 4 {
            return Ok(0);
        }
        buf[0] = b'a';
        Ok(4)
    }
}

// A writer that takes one byte, then nothing, and then fails.
#[derive(Drop)]
struct TiringWriter {
    calls: u8,
}

impl Write for TiringWriter {
    fn write(&mut self, buf: &[u8]) -> io::Result<usize> {
        self.calls = self.calls.saturating_add(1);
        match self.calls {
            1 => Ok(buf.len().min(1)),
            2 => Ok(0),
            _ => Err(ErrorKind::Other.into()),
        }
    }

    fn flush(&mut self) -> io::Result<()> {
        Ok(())
    }
}

/// Fails where a source answers anything else, call for call.
fn compare_reads(
    rt: &impl Abort,
    source: &mut impl Source,
    buf: &mut [u8],
    wants: &[Result<usize, Failed>],
) {
    for (call, want) in wants.iter().enumerate() {
        assert_eq!(rt; source.read(buf), *want, "read {call}");
    }
}

/// Fails where a sink answers anything else of the same piece, call for call.
fn compare_writes(rt: &impl Abort, sink: &mut impl Sink, wants: &[Result<usize, Failed>]) {
    for (call, want) in wants.iter().enumerate() {
        assert_eq!(rt; sink.write(b"abcd"), *want, "write {call}");
    }
}

#[test]
fn a_standard_source_reads_until_it_fails(rt: HostRuntime) {
    let mut source = StdinSource::new(ShortReader { used: false });
    let mut buf = [0; 8];
    compare_reads(
        &rt,
        &mut source,
        &mut buf,
        &[Ok(4), Err(Failed), Err(Failed)],
    );
    assert_eq!(rt; buf[0], b'a');
}

#[test]
fn a_standard_sink_fails_where_nothing_is_taken(rt: HostRuntime) {
    let mut sink = StdoutSink::new(TiringWriter { calls: 0 });
    compare_writes(&rt, &mut sink, &[Ok(1), Err(Failed), Err(Failed)]);
}

/// The bytes `abcde`, two a call, where the calls of these numbers fail.
fn source_of(alloc: Global, fail: &[u64]) -> Result<MemorySource, Fail> {
    let bytes = b"abcde".to_vec(alloc)?;
    Ok(MemorySource::new(bytes, fail.to_vec(alloc)?, 2))
}

#[test]
fn a_memory_source_fails_at_the_planned_calls(rt: HostRuntime) -> Result<(), Fail> {
    let mut source = source_of(rt.alloc(), &[2, 5])?;
    let mut buf = [0; 4];
    let wants = [Ok(2), Err(Failed), Ok(2), Ok(1), Err(Failed), Ok(0)];
    compare_reads(&rt, &mut source, &mut buf, &wants);
    assert_eq!(rt; buf, [b'e', b'd', 0, 0]);
    Ok(())
}

#[test]
fn a_memory_sink_fails_at_the_planned_calls(rt: HostRuntime) -> Result<(), Fail> {
    let alloc = rt.alloc();
    let mut sink = MemorySink::new(alloc, 5, [2].to_vec(alloc)?, 3)?;
    compare_writes(&rt, &mut sink, &[Ok(3), Err(Failed), Ok(2), Err(Failed)]);
    assert_eq!(rt; sink.bytes(), b"abcab".as_slice());
    Ok(())
}

/// Fails where `abcde`, of whose calls these fail, isn't read whole up to a limit, or isn't refused so.
fn compare_whole(
    rt: &(impl Alloc<A = Global> + Abort),
    fail: &[u64],
    limit: usize,
    want: Option<InputFault>,
) -> Result<(), Fail> {
    let alloc = rt.alloc();
    let mut source = source_of(alloc, fail)?;
    match read_all(alloc, &mut source, limit) {
        Ok(text) => {
            assert_eq!(rt; text.as_slice(), b"abcde".as_slice());
            assert_eq!(rt; None, want);
        }
        Err(fault) => assert_eq!(rt; Some(fault), want),
    }
    Ok(())
}

#[test]
fn an_input_is_read_whole(rt: HostRuntime) -> Result<(), Fail> {
    compare_whole(&rt, &[], 5, None)?;
    compare_whole(&rt, &[], 4, Some(InputFault::TooLong))?;
    compare_whole(&rt, &[4], 5, Some(InputFault::ReadFault))
}

#[test]
fn a_piece_is_written_whole(rt: HostRuntime) -> Result<(), Fail> {
    let alloc = rt.alloc();
    let mut sink = MemorySink::new(alloc, 9, Vec::new(alloc), 4)?;
    assert_eq!(rt; write_piece(&mut sink, b"abcdefghi"), Ok(()));
    assert_eq!(rt; sink.bytes(), b"abcdefghi".as_slice());
    assert_eq!(rt; write_piece(&mut sink, b"j"), Err(Failed));
    Ok(())
}

#[test]
fn an_open_gate_lets_enter(_rt: HostRuntime) {
    OpenGate.enter(0);
}
