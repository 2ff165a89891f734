//! Plans of known documents, with the bound of their traffic or without one.

use crate::test_rows::{MEMORY, Row, compare};
use axi_program::Status;
use refusals::{Cause, Refusal};
use std::test::Fail;

fn planned(topology: &'static [u8], input: &'static [u8], written: &'static [u8]) -> Row {
    Row {
        words: &["axinet", "plan"],
        topology,
        input,
        status: Status::Done,
        written,
    }
}

// A demux above one memory, with traffic for neither of its pages.
fn an_unmapped_address() -> Row {
    planned(
        b"version = 1
node = [
 {name=\"m\", kind=\"manager\", bus=4, id_width=4, to=\"d\"},
 {name=\"d\", kind=\"demux\", region=[{base=0, size=4096, to=\"ram\"}]},
 {name=\"ram\", kind=\"memory\", bus=4, base=0, size=4096},
]
",
        b"%%\nread m 5 0x9000 4 incr 2\nwrite m 5 0x9000 4 incr 01020304\n",
        b"node 0 manager m
node 1 demux d
node 2 error d.err
node 3 memory ram
link 0 0 1 axi 4 4 2
link 1 1 3 axi 4 4 2
link 2 1 2 axi 4 4 2
bound 54
",
    )
}

// Without traffic no round is made.
fn no_traffic() -> Row {
    planned(
        MEMORY,
        b"%%\n",
        b"node 0 manager m\nnode 1 memory ram\nlink 0 0 1 axi 4 4 2\nbound 0\n",
    )
}

// Traffic that is refused has no bound.
fn refused_traffic() -> Row {
    planned(
        MEMORY,
        b"%%\nread m 0 0x0 4 incr 1\nx\n",
        b"node 0 manager m\nnode 1 memory ram\nlink 0 0 1 axi 4 4 2\nbound -\n",
    )
}

// A topology that is refused.
fn a_loose_node() -> Row {
    Row {
        status: Status::Refused(Refusal::at(Cause::Loose, 1)),
        ..planned(
            b"version = 1\nnode = [{name=\"ram\", kind=\"memory\", bus=4, base=0, size=4096}]\n",
            b"%%\n",
            b"refused 9 Loose 1\n",
        )
    }
}

// A node of a kind that doesn't run yet.
fn an_unbuilt_node() -> Row {
    Row {
        status: Status::Refused(Refusal::at(Cause::NotBuilt, 2)),
        ..planned(
            b"version = 1
node = [
 {name=\"m\", kind=\"manager\", bus=8, id_width=4, to=\"d\"},
 {name=\"d\", kind=\"down\", bus=4, to=\"ram\"},
 {name=\"ram\", kind=\"memory\", bus=4, base=0, size=4096},
]
",
            b"%%\nx\n",
            b"refused 23 NotBuilt 2\n",
        )
    }
}

#[test]
fn plans_are_told(rt: HostRuntime) -> Result<(), Fail> {
    compare(&rt, &an_unmapped_address())?;
    compare(&rt, &no_traffic())?;
    compare(&rt, &refused_traffic())
}

#[test]
fn topologies_are_refused(rt: HostRuntime) -> Result<(), Fail> {
    compare(&rt, &a_loose_node())?;
    compare(&rt, &an_unbuilt_node())
}
