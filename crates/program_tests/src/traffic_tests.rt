//! Known documents: what the top call answers of each, and what it writes.

use crate::test_rows::{Row, compare, compare_end, joined, ran, words_of};
use axi_program::{MemorySink, OpenGate, Status, SureSink, SureSource, axinet};
use refusals::{Cause, Refusal};
use std::alloc::Global;
use std::process::Abort;
use std::test::Fail;

fn done(input: &'static [u8], written: &'static [u8]) -> Row {
    ran(input, Status::Done, written)
}

fn refused(input: &'static [u8], refusal: Refusal, written: &'static [u8]) -> Row {
    ran(input, Status::Refused(refusal), written)
}

fn no_traffic() -> Row {
    done(b"%%", b"rounds 0\n")
}

// The write wraps at 0x40 and goes on at 0x30.
fn a_wrapping_write() -> Row {
    done(
        b"%%\nwrite m 0 0x38 4 wrap 01010101 02020202 03030303 04040404\nwait m\nread m 0 0x30 4 incr 4\n",
        b"1 write m 1 8 okay\n2 read m 9 15 okay:03030303 okay:04040404 okay:01010101 okay:02020202\nrounds 15\n",
    )
}

fn an_unaligned_burst() -> Row {
    done(
        b"%%\nwrite m 0 0x1003 4 incr aa b0b1b2b3 c0c1c2c3\nwait m\nread m 0 0x1003 4 incr 3\n",
        b"1 write m 1 7 okay\n2 read m 8 13 okay:aa okay:b0b1b2b3 okay:c0c1c2c3\nrounds 13\n",
    )
}

fn the_end_of_a_page() -> Row {
    done(
        b"%%\nwrite m 0 0xffc 4 incr 00000000\n",
        b"1 write m 1 5 okay\nrounds 5\n",
    )
}

fn a_write_without_strobes() -> Row {
    done(
        b"%%\nwrite m 0 0x10 4 incr --------\nwait m\nread m 0 0x10 4 incr 1\n",
        b"1 write m 1 5 okay\n2 read m 6 9 okay:00000000\nrounds 9\n",
    )
}

fn past_the_memory() -> Row {
    done(
        b"%%\r\n# past the end\r\n\r\n\tread m 0 0x9000 4 incr 1\r\nwait m\r\nwrite m 1 0x9000 4 incr 01020304\r\n",
        b"1 read m 1 4 decerr:00000000\n2 write m 5 9 decerr\nrounds 9\n",
    )
}

fn sixteen_beats() -> Row {
    done(b"%%\nread m 0 0x0 4 fixed 16", b"rounds 19\n")
}

fn most_beats() -> Row {
    done(b"%%\nread m 0 0x0 4 incr 256", b"rounds 259\n")
}

#[test]
fn documents_are_run(rt: HostRuntime) -> Result<(), Fail> {
    compare(&rt, &no_traffic())?;
    compare(&rt, &a_wrapping_write())?;
    compare(&rt, &an_unaligned_burst())?;
    compare(&rt, &the_end_of_a_page())?;
    compare(&rt, &a_write_without_strobes())?;
    compare(&rt, &past_the_memory())?;
    compare_end(&rt, &sixteen_beats())?;
    compare_end(&rt, &most_beats())
}

fn two_pages() -> Row {
    refused(
        b"%%\nwrite m 0 0xffc 4 incr 00000000 00000000\n",
        Refusal::illegal_burst(1, 4),
        b"refused 20 IllegalBurst 1 4\n",
    )
}

fn seventeen_fixed_beats() -> Row {
    refused(
        b"%%\nread m 0 0x0 4 fixed 17\n",
        Refusal::illegal_burst(1, 2),
        b"refused 20 IllegalBurst 1 2\n",
    )
}

fn too_many_beats() -> Row {
    refused(
        b"%%\nread m 0 0x0 4 incr 257\n",
        Refusal::illegal_burst(1, 2),
        b"refused 20 IllegalBurst 1 2\n",
    )
}

fn a_large_id() -> Row {
    refused(
        b"%%\nread m 16 0x0 4 incr 1\n",
        Refusal::at(Cause::BadId, 1),
        b"refused 19 BadId 1\n",
    )
}

fn an_unknown_manager() -> Row {
    refused(
        b"%%\nwait z\n",
        Refusal::at(Cause::UnknownManager, 1),
        b"refused 18 UnknownManager 1\n",
    )
}

fn a_pair_too_many() -> Row {
    refused(
        b"%%\nwrite m 0 0x1 4 incr 00000000\n",
        Refusal::at(Cause::BadLine, 1),
        b"refused 17 BadLine 1\n",
    )
}

fn a_bad_line_after_a_large_id() -> Row {
    refused(
        b"%%\nread m 16 0x0 4 incr 1\nwait\n",
        Refusal::at(Cause::BadLine, 2),
        b"refused 17 BadLine 2\n",
    )
}

fn no_separator() -> Row {
    refused(
        b"%% \n",
        Refusal::new(Cause::NoSeparator),
        b"refused 3 NoSeparator\n",
    )
}

fn no_text() -> Row {
    refused(
        b"\xff",
        Refusal::new(Cause::NotText),
        b"refused 2 NotText\n",
    )
}

#[test]
fn documents_are_refused(rt: HostRuntime) -> Result<(), Fail> {
    compare(&rt, &two_pages())?;
    compare(&rt, &seventeen_fixed_beats())?;
    compare(&rt, &too_many_beats())?;
    compare(&rt, &a_large_id())?;
    compare(&rt, &an_unknown_manager())?;
    compare(&rt, &a_pair_too_many())?;
    compare(&rt, &a_bad_line_after_a_large_id())?;
    compare(&rt, &no_separator())?;
    compare(&rt, &no_text())
}

/// Fails where so many spaces aren't refused so.
fn compare_spaces(
    rt: &(impl Alloc<A = Global> + Abort),
    command: &str,
    count: usize,
    refusal: Refusal,
    written: &[u8],
) -> Result<(), Fail> {
    let alloc = rt.alloc();
    let words = words_of(alloc, &["axinet", command])?;
    let mut bytes = Vec::new(alloc);
    bytes.resize(count, b' ')?;
    let mut source = SureSource::new(bytes);
    let mut sink = MemorySink::new(alloc, 100, Vec::new(alloc), 100)?;
    let status = axinet(alloc, &words, &mut source, &mut sink, &OpenGate);
    assert_eq!(rt; status, Status::Refused(refusal));
    assert_eq!(rt; sink.bytes(), written);
    Ok(())
}

#[test]
fn long_inputs_are_refused(rt: HostRuntime) -> Result<(), Fail> {
    let too_long = Refusal::new(Cause::InputTooLong);
    compare_spaces(
        &rt,
        "run",
        16_777_217,
        too_long,
        b"refused 1 InputTooLong\n",
    )?;
    compare_spaces(
        &rt,
        "check",
        16_777_217,
        too_long,
        b"refused 1 InputTooLong\n",
    )?;
    let no_separator = Refusal::new(Cause::NoSeparator);
    compare_spaces(
        &rt,
        "run",
        16_777_216,
        no_separator,
        b"refused 3 NoSeparator\n",
    )
}

/// Fails where the top call answers anything else than a row has, between devices that never fail.
fn compare_sure(rt: &(impl Alloc<A = Global> + Abort), row: &Row) -> Result<(), Fail> {
    let alloc = rt.alloc();
    let words = words_of(alloc, row.words)?;
    let mut source = SureSource::new(joined(alloc, row.topology, row.input)?);
    let status = axinet(alloc, &words, &mut source, &mut SureSink::new(), &OpenGate);
    assert_eq!(rt; status, row.status);
    Ok(())
}

fn no_command() -> Row {
    Row {
        words: &["axinet"],
        topology: b"",
        input: b"%%",
        status: Status::Usage,
        written: b"",
    }
}

fn too_many_workers() -> Row {
    Row {
        words: &["axinet", "run", "--workers=65"],
        topology: b"",
        input: b"%%",
        status: Status::Usage,
        written: b"",
    }
}

#[test]
fn nothing_fails_between_a_sure_source_and_a_sure_sink(rt: HostRuntime) -> Result<(), Fail> {
    compare_sure(&rt, &no_command())?;
    compare_sure(&rt, &too_many_workers())?;
    compare_sure(&rt, &a_wrapping_write())
}

#[test]
fn a_refusal_has_its_exit_code(rt: HostRuntime) {
    assert_eq!(rt; Status::Refused(Refusal::new(Cause::NotText)).code(), 3);
}
