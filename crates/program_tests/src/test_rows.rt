//! A row of the tests of the top call, and what compares the top call with one.

use axi_program::{MemorySink, MemorySource, OpenGate, Status, axinet};
use std::alloc::Global;
use std::process::Abort;
use std::test::Fail;

/// A manager above a memory of 8192 bytes.
pub const MEMORY: &[u8] = b"version = 1
node = [
 {name=\"m\", kind=\"manager\", bus=4, id_width=4, to=\"ram\"},
 {name=\"ram\", kind=\"memory\", bus=4, base=0, size=8192},
]
";

/// The words of the command line, an input in two parts, what the top call answers, and what it writes.
#[derive(Clone, Copy)]
pub struct Row {
    pub words: &'static [&'static str],
    pub topology: &'static [u8],
    pub input: &'static [u8],
    pub status: Status,
    pub written: &'static [u8],
}

/// The row of traffic that is run on a manager above a memory.
pub fn ran(input: &'static [u8], status: Status, written: &'static [u8]) -> Row {
    Row {
        words: &["axinet", "run"],
        topology: MEMORY,
        input,
        status,
        written,
    }
}

/// The row of a trace that is judged.
pub fn judged(input: &'static [u8], status: Status, written: &'static [u8]) -> Row {
    Row {
        words: &["axinet", "check"],
        topology: b"",
        input,
        status,
        written,
    }
}

/// The words of a command line, of which the first one is the program's name.
pub fn words_of(alloc: Global, words: &[&str]) -> Result<Vec<String>, Fail> {
    let mut owned = Vec::new(alloc);
    for word in words {
        owned.push(String::from_str(alloc, word)?)?;
    }
    Ok(owned)
}

/// A text in two parts.
pub fn joined(alloc: Global, front: &[u8], rest: &[u8]) -> Result<Vec<u8>, Fail> {
    let mut bytes = front.to_vec(alloc)?;
    bytes.extend_from_slice(rest)?;
    Ok(bytes)
}

/// Fails where the top call answers anything else than a row has.
fn call(
    rt: &(impl Alloc<A = Global> + Abort),
    row: &Row,
    sink: &mut MemorySink,
) -> Result<(), Fail> {
    let alloc = rt.alloc();
    let words = words_of(alloc, row.words)?;
    let input = joined(alloc, row.topology, row.input)?;
    let mut source = MemorySource::new(input, Vec::new(alloc), 50);
    assert_eq!(rt;
        axinet(alloc, &words, &mut source, sink, &OpenGate),
        row.status
    );
    Ok(())
}

/// Fails where the top call answers or writes anything else than a row has.
pub fn compare(rt: &(impl Alloc<A = Global> + Abort), row: &Row) -> Result<(), Fail> {
    let alloc = rt.alloc();
    let mut sink = MemorySink::new(alloc, 1000, Vec::new(alloc), 70)?;
    call(rt, row, &mut sink)?;
    assert_eq!(rt; sink.bytes(), row.written);
    Ok(())
}

/// The same of a row that has only the end of what is written.
pub fn compare_end(rt: &(impl Alloc<A = Global> + Abort), row: &Row) -> Result<(), Fail> {
    let alloc = rt.alloc();
    let mut sink = MemorySink::new(alloc, 5000, Vec::new(alloc), 5000)?;
    call(rt, row, &mut sink)?;
    assert!(rt; sink.bytes().ends_with(row.written));
    Ok(())
}
