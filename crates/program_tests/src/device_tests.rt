//! A run over sources and sinks that fail, or that move one byte a call.

use crate::test_rows::{MEMORY, joined, words_of};
use axi_program::{MemorySink, MemorySource, OpenGate, Status, axinet};
use std::alloc::Global;
use std::process::Abort;
use std::test::Fail;

/// The input: a write, and a read of what it wrote.
fn input(alloc: Global) -> Result<Vec<u8>, Fail> {
    joined(
        alloc,
        MEMORY,
        b"%%\nwrite m 1 0x10 4 incr 11223344\nwait m\nread m 2 0x10 4 incr 1\n",
    )
}

/// The first lines of its run: none to all three.
fn first_lines(count: u64) -> &'static [u8] {
    match count {
        0 => b"",
        1 => b"1 write m 1 5 okay\n",
        2 => b"1 write m 1 5 okay\n2 read m 6 9 okay:11223344\n",
        _ => b"1 write m 1 5 okay\n2 read m 6 9 okay:11223344\nrounds 9\n",
    }
}

/// What the top call answers over this source and this sink, and what it writes.
fn compare(
    rt: &(impl Alloc<A = Global> + Abort),
    source: &mut MemorySource,
    sink: &mut MemorySink,
    status: Status,
    lines: u64,
) -> Result<(), Fail> {
    let alloc = rt.alloc();
    let words = words_of(alloc, &["axinet", "run"])?;
    assert_eq!(rt; axinet(alloc, &words, source, sink, &OpenGate), status);
    assert_eq!(rt; sink.bytes(), first_lines(lines));
    Ok(())
}

/// The call of this number fails of a source that moves 64 bytes a call.
fn source_that_fails(
    rt: &(impl Alloc<A = Global> + Abort),
    call: u64,
    status: Status,
    lines: u64,
) -> Result<(), Fail> {
    let alloc = rt.alloc();
    let mut source = MemorySource::new(input(alloc)?, [call].to_vec(alloc)?, 64);
    let mut sink = MemorySink::new(alloc, 100, Vec::new(alloc), 100)?;
    compare(rt, &mut source, &mut sink, status, lines)
}

/// The call of this number fails of a sink that takes each piece whole.
fn sink_that_fails(
    rt: &(impl Alloc<A = Global> + Abort),
    call: u64,
    status: Status,
    lines: u64,
) -> Result<(), Fail> {
    let alloc = rt.alloc();
    let mut source = MemorySource::new(input(alloc)?, Vec::new(alloc), 100);
    let mut sink = MemorySink::new(alloc, 100, [call].to_vec(alloc)?, 100)?;
    compare(rt, &mut source, &mut sink, status, lines)
}

#[test]
fn a_failing_source_is_a_read_fault(rt: HostRuntime) -> Result<(), Fail> {
    // 201 bytes come in four calls, and one more tells the end.
    for call in 1..6 {
        source_that_fails(&rt, call, Status::ReadFault, 0)?;
    }
    source_that_fails(&rt, 6, Status::Done, 3)
}

#[test]
fn a_failing_sink_is_a_write_fault(rt: HostRuntime) -> Result<(), Fail> {
    for call in 1..4 {
        sink_that_fails(&rt, call, Status::WriteFault, call - 1)?;
    }
    sink_that_fails(&rt, 4, Status::Done, 3)
}

#[test]
fn devices_of_one_byte_make_the_same_text(rt: HostRuntime) -> Result<(), Fail> {
    let alloc = rt.alloc();
    let mut source = MemorySource::new(input(alloc)?, Vec::new(alloc), 1);
    let mut sink = MemorySink::new(alloc, 100, Vec::new(alloc), 1)?;
    compare(&rt, &mut source, &mut sink, Status::Done, 3)
}

#[test]
fn a_long_line_is_offered_in_one_call(rt: HostRuntime) -> Result<(), Fail> {
    let alloc = rt.alloc();
    let words = words_of(alloc, &["axinet", "run"])?;
    let input = joined(alloc, MEMORY, b"%%\nread m 0 0x0 4 incr 256\n")?;
    let mut source = MemorySource::new(input, Vec::new(alloc), 100);
    let mut sink = MemorySink::new(alloc, 5000, [2].to_vec(alloc)?, 5000)?;
    let status = axinet(alloc, &words, &mut source, &mut sink, &OpenGate);
    assert_eq!(rt; status, Status::WriteFault);
    // The first call took the whole answer, 14 bytes for each of its 256 beats, and the second one failed.
    assert_eq!(rt; sink.bytes().len(), 15 + 256 * 14);
    assert!(rt; sink.bytes().starts_with(b"1 read m 1 259 okay:00000000"));
    Ok(())
}
