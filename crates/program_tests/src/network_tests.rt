//! Known networks: what the top call answers of each, and what it writes.

use crate::test_rows::{Row, compare, joined, words_of};
use axi_program::{MemorySink, MemorySource, OpenGate, Status, axinet};
use refusals::{Cause, Refusal};
use std::test::Fail;

fn of_network(
    topology: &'static [u8],
    input: &'static [u8],
    status: Status,
    written: &'static [u8],
) -> Row {
    Row {
        words: &["axinet", "run"],
        topology,
        input,
        status,
        written,
    }
}

// A demux above one memory.
const ONE_PAGE: &[u8] = b"version = 1
node = [
 {name=\"m\", kind=\"manager\", bus=4, id_width=4, to=\"d\"},
 {name=\"d\", kind=\"demux\", region=[{base=0, size=4096, to=\"ram\"}]},
 {name=\"ram\", kind=\"memory\", bus=4, base=0, size=4096},
]
";

fn an_unmapped_address() -> Row {
    of_network(
        ONE_PAGE,
        b"%%\nread m 5 0x9000 4 incr 2\nwrite m 5 0x9000 4 incr 01020304\n",
        Status::Done,
        b"1 read m 1 7 decerr:00000000 decerr:00000000\n2 write m 1 7 decerr\nrounds 7\n",
    )
}

// Two managers at two memories, each with a short way and one over two slices.
const CROSSED: &[u8] = b"version = 1
node = [
 {name=\"a\", kind=\"manager\", bus=4, id_width=1, to=\"da\"},
 {name=\"b\", kind=\"manager\", bus=4, id_width=1, to=\"db\"},
 {name=\"da\", kind=\"demux\", region=[{base=0, size=4096, to=\"s1\"}, {base=4096, size=4096, to=\"mq\"}]},
 {name=\"db\", kind=\"demux\", region=[{base=0, size=4096, to=\"mp\"}, {base=4096, size=4096, to=\"s3\"}]},
 {name=\"s1\", kind=\"slice\", to=\"s2\"},
 {name=\"s2\", kind=\"slice\", to=\"mp\"},
 {name=\"s3\", kind=\"slice\", to=\"s4\"},
 {name=\"s4\", kind=\"slice\", to=\"mq\"},
 {name=\"mp\", kind=\"mux\", to=\"p\"},
 {name=\"mq\", kind=\"mux\", to=\"q\"},
 {name=\"p\", kind=\"memory\", bus=4, base=0, size=4096},
 {name=\"q\", kind=\"memory\", bus=4, base=4096, size=4096},
]
";

// Each manager's first write goes the longer way, to the memory of the other's second one.
const CROSSED_TRAFFIC: &[u8] = b"%%
write a 0 0x0 1 incr 01 02 03 04 05 06 07 08
write a 1 0x1000 1 incr 11
write b 0 0x1000 1 incr 21 22 23 24 25 26 27 28
write b 1 0x0 1 incr 31
";

fn crossed_writes() -> Row {
    of_network(
        CROSSED,
        CROSSED_TRAFFIC,
        Status::Done,
        b"1 write a 1 20 okay\n2 write a 2 19 okay\n3 write b 1 20 okay\n4 write b 2 19 okay\nrounds 20\n",
    )
}

fn crossed_writes_by_many_workers() -> Row {
    Row {
        words: &["axinet", "run", "--workers=64"],
        ..crossed_writes()
    }
}

// One ID below a remapper: the second read waits until the first one is answered.
fn one_id_below() -> Row {
    of_network(
        b"version = 1
node = [
 {name=\"m\", kind=\"manager\", bus=4, id_width=2, to=\"rm\"},
 {name=\"rm\", kind=\"remap\", id_width=0, to=\"ram\"},
 {name=\"ram\", kind=\"memory\", bus=4, base=0, size=4096},
]
",
        b"%%\nread m 1 0x0 4 incr 1\nread m 2 0x4 4 incr 1\n",
        Status::Done,
        b"1 read m 1 6 okay:00000000\n2 read m 2 10 okay:00000000\nrounds 10\n",
    )
}

// A slow memory and another one, behind a demux.
const SLOW_AND_FAST: &[u8] = b"version = 1
node = [
 {name=\"m\", kind=\"manager\", bus=4, id_width=1, to=\"d\"},
 {name=\"d\", kind=\"demux\", region=[{base=0, size=4096, to=\"p\"}, {base=4096, size=4096, to=\"q\"}]},
 {name=\"p\", kind=\"memory\", bus=4, base=0, size=4096, fill=17, give=[10]},
 {name=\"q\", kind=\"memory\", bus=4, base=4096, size=4096, fill=34},
]
";

fn one_id_at_two_memories() -> Row {
    of_network(
        SLOW_AND_FAST,
        b"%%\nread m 0 0x0 4 incr 1\nread m 0 0x1000 4 incr 1\n",
        Status::Done,
        b"1 read m 1 16 okay:11111111\n2 read m 2 20 okay:22222222\nrounds 20\n",
    )
}

fn two_ids_at_two_memories() -> Row {
    of_network(
        SLOW_AND_FAST,
        b"%%\nread m 0 0x0 4 incr 1\nread m 1 0x1000 4 incr 1\n",
        Status::Done,
        b"1 read m 1 16 okay:11111111\n2 read m 2 7 okay:22222222\nrounds 16\n",
    )
}

fn a_read_only_range() -> Row {
    of_network(
        b"version = 1
node = [
 {name=\"m\", kind=\"manager\", bus=4, id_width=4, to=\"ram\"},
 {name=\"ram\", kind=\"memory\", bus=4, base=0, size=8192, read_only=[{base=128, size=128}]},
]
",
        b"%%\nwrite m 0 0x7c 4 incr 01010101 02020202\nwait m\nread m 0 0x7c 4 incr 2\n",
        Status::Done,
        b"1 write m 1 6 slverr\n2 read m 7 11 okay:01010101 okay:00000000\nrounds 11\n",
    )
}

#[test]
fn networks_are_run(rt: HostRuntime) -> Result<(), Fail> {
    compare(&rt, &an_unmapped_address())?;
    compare(&rt, &crossed_writes())?;
    compare(&rt, &crossed_writes_by_many_workers())?;
    compare(&rt, &one_id_at_two_memories())?;
    compare(&rt, &two_ids_at_two_memories())?;
    compare(&rt, &one_id_below())?;
    compare(&rt, &a_read_only_range())
}

fn no_bytes() -> Row {
    of_network(
        b"",
        b"",
        Status::Refused(Refusal::new(Cause::NoSeparator)),
        b"refused 3 NoSeparator\n",
    )
}

fn no_toml() -> Row {
    of_network(
        b"=\n",
        b"%%\n",
        Status::Refused(Refusal::new(Cause::TomlRefused)),
        b"refused 4 TomlRefused\n",
    )
}

fn no_topology() -> Row {
    of_network(
        b"",
        b"%%\n",
        Status::Refused(Refusal::at(Cause::BadKey, 0)),
        b"refused 5 BadKey 0\n",
    )
}

fn a_ring_of_slices() -> Row {
    of_network(
        b"version = 1
node = [
 {name=\"m\", kind=\"manager\", bus=4, id_width=4, to=\"ram\"},
 {name=\"ram\", kind=\"memory\", bus=4, base=0, size=8192},
 {name=\"s1\", kind=\"slice\", to=\"s2\"},
 {name=\"s2\", kind=\"slice\", to=\"s1\"},
]
",
        b"%%\n",
        Status::Refused(Refusal::at(Cause::Cycle, 3)),
        b"refused 10 Cycle 3\n",
    )
}

fn ids_that_are_too_wide() -> Row {
    of_network(
        b"version = 1
node = [
 {name=\"a\", kind=\"manager\", bus=4, id_width=15, to=\"x\"},
 {name=\"b\", kind=\"manager\", bus=4, id_width=15, to=\"x\"},
 {name=\"c\", kind=\"manager\", bus=4, id_width=15, to=\"x\"},
 {name=\"x\", kind=\"mux\", to=\"ram\"},
 {name=\"ram\", kind=\"memory\", bus=4, base=0, size=8192},
]
",
        b"%%\n",
        Status::Refused(Refusal::at(Cause::IdOverflow, 4)),
        b"refused 14 IdOverflow 4\n",
    )
}

#[test]
fn networks_are_refused(rt: HostRuntime) -> Result<(), Fail> {
    compare(&rt, &no_bytes())?;
    compare(&rt, &no_toml())?;
    compare(&rt, &no_topology())?;
    compare(&rt, &a_ring_of_slices())?;
    compare(&rt, &ids_that_are_too_wide())
}

#[test]
fn the_lines_before_a_failed_write_stand(rt: HostRuntime) -> Result<(), Fail> {
    let alloc = rt.alloc();
    let words = words_of(alloc, &["axinet", "run"])?;
    let input = joined(alloc, CROSSED, CROSSED_TRAFFIC)?;
    let mut source = MemorySource::new(input, Vec::new(alloc), 1000);
    let mut sink = MemorySink::new(alloc, 1000, [5].to_vec(alloc)?, 1000)?;
    assert_eq!(rt;
        axinet(alloc, &words, &mut source, &mut sink, &OpenGate),
        Status::WriteFault
    );
    let written: &[u8] =
        b"1 write a 1 20 okay\n2 write a 2 19 okay\n3 write b 1 20 okay\n4 write b 2 19 okay\n";
    assert_eq!(rt; sink.bytes(), written);
    Ok(())
}
