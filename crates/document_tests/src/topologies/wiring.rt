//! Documents of codes 6 to 10: which nodes are named, and which stand below which.

use super::{Row, compare};
use refusals::{Cause, Refusal};
use std::test::Fail;

fn a_name_twice() -> Row {
    Row {
        text: "version = 1\nnode = [\n {name=\"m\", kind=\"manager\", bus=4, id_width=4, to=\"ram\"},\n {name=\"ram\", kind=\"memory\", bus=4, base=0, size=4096},\n {name=\"ram\", kind=\"memory\", bus=4, base=0, size=4096},\n]\n",
        fault: Some(Refusal::at(Cause::DuplicateName, 3)),
    }
}

fn a_name_thrice() -> Row {
    Row {
        text: "version = 1\nnode = [\n {name=\"m\", kind=\"manager\", bus=4, id_width=4, to=\"ram\"},\n {name=\"ram\", kind=\"memory\", bus=4, base=0, size=4096},\n {name=\"ram\", kind=\"memory\", bus=4, base=0, size=4096},\n {name=\"ram\", kind=\"memory\", bus=4, base=0, size=4096},\n]\n",
        fault: Some(Refusal::at(Cause::DuplicateName, 3)),
    }
}

fn a_name_twice_behind_an_unknown_one() -> Row {
    Row {
        text: "version = 1\nnode = [\n {name=\"m\", kind=\"manager\", bus=4, id_width=4, to=\"z\"},\n {name=\"ram\", kind=\"memory\", bus=4, base=0, size=4096},\n {name=\"ram\", kind=\"memory\", bus=4, base=0, size=4096},\n]\n",
        fault: Some(Refusal::at(Cause::DuplicateName, 3)),
    }
}

fn names_that_differ_at_the_end() -> Row {
    Row {
        text: "version = 1\nnode = [\n {name=\"m1\", kind=\"manager\", bus=4, id_width=4, to=\"ram1\"},\n {name=\"ram1\", kind=\"memory\", bus=4, base=0, size=4096},\n {name=\"m2\", kind=\"manager\", bus=4, id_width=4, to=\"ram2\"},\n {name=\"ram2\", kind=\"memory\", bus=4, base=0, size=4096},\n]\n",
        fault: None,
    }
}

fn an_unknown_name() -> Row {
    Row {
        text: "version = 1\nnode = [\n {name=\"m\", kind=\"manager\", bus=4, id_width=4, to=\"rom\"},\n {name=\"ram\", kind=\"memory\", bus=4, base=0, size=4096},\n]\n",
        fault: Some(Refusal::at(Cause::UnknownName, 1)),
    }
}

fn a_region_of_an_unknown_name() -> Row {
    Row {
        text: "version = 1\nnode = [\n {name=\"m\", kind=\"manager\", bus=4, id_width=4, to=\"d\"},\n {name=\"d\", kind=\"demux\", region=[{base=0, size=4096, to=\"ram\"}, {base=4096, size=4096, to=\"rom\"}]},\n {name=\"ram\", kind=\"memory\", bus=4, base=0, size=4096},\n]\n",
        fault: Some(Refusal::at(Cause::UnknownName, 2)),
    }
}

fn an_unknown_name_behind_a_manager_that_is_named() -> Row {
    Row {
        text: "version = 1\nnode = [\n {name=\"m\", kind=\"manager\", bus=4, id_width=4, to=\"ram\"},\n {name=\"s\", kind=\"slice\", to=\"m\"},\n {name=\"t\", kind=\"slice\", to=\"z\"},\n {name=\"ram\", kind=\"memory\", bus=4, base=0, size=4096},\n]\n",
        fault: Some(Refusal::at(Cause::UnknownName, 3)),
    }
}

fn a_node_that_names_itself() -> Row {
    Row {
        text: "version = 1\nnode = [\n {name=\"m\", kind=\"manager\", bus=4, id_width=4, to=\"ram\"},\n {name=\"ram\", kind=\"memory\", bus=4, base=0, size=4096},\n {name=\"s\", kind=\"slice\", to=\"s\"},\n]\n",
        fault: Some(Refusal::at(Cause::Cycle, 3)),
    }
}

fn a_manager_that_is_named() -> Row {
    Row {
        text: "version = 1\nnode = [\n {name=\"m\", kind=\"manager\", bus=4, id_width=4, to=\"ram\"},\n {name=\"s\", kind=\"slice\", to=\"m\"},\n {name=\"ram\", kind=\"memory\", bus=4, base=0, size=4096},\n]\n",
        fault: Some(Refusal::at(Cause::FanIn, 1)),
    }
}

fn a_slice_named_twice() -> Row {
    Row {
        text: "version = 1\nnode = [\n {name=\"a\", kind=\"manager\", bus=4, id_width=4, to=\"s\"},\n {name=\"b\", kind=\"manager\", bus=4, id_width=4, to=\"s\"},\n {name=\"s\", kind=\"slice\", to=\"ram\"},\n {name=\"ram\", kind=\"memory\", bus=4, base=0, size=4096},\n]\n",
        fault: Some(Refusal::at(Cause::FanIn, 3)),
    }
}

fn a_memory_named_twice_by_one_node() -> Row {
    Row {
        text: "version = 1\nnode = [\n {name=\"m\", kind=\"manager\", bus=4, id_width=4, to=\"d\"},\n {name=\"d\", kind=\"demux\", region=[{base=0, size=4096, to=\"ram\"}, {base=4096, size=4096, to=\"ram\"}]},\n {name=\"ram\", kind=\"memory\", bus=4, base=0, size=8192},\n]\n",
        fault: None,
    }
}

fn a_mux_named_twice() -> Row {
    Row {
        text: "version = 1\nnode = [\n {name=\"a\", kind=\"manager\", bus=4, id_width=4, to=\"x\"},\n {name=\"b\", kind=\"manager\", bus=4, id_width=4, to=\"x\"},\n {name=\"x\", kind=\"mux\", to=\"ram\"},\n {name=\"ram\", kind=\"memory\", bus=4, base=0, size=4096},\n]\n",
        fault: None,
    }
}

fn fan_in_behind_a_loose_node() -> Row {
    Row {
        text: "version = 1\nnode = [\n {name=\"rom\", kind=\"memory\", bus=4, base=0, size=4096},\n {name=\"a\", kind=\"manager\", bus=4, id_width=4, to=\"ram\"},\n {name=\"b\", kind=\"manager\", bus=4, id_width=4, to=\"ram\"},\n {name=\"ram\", kind=\"memory\", bus=4, base=0, size=4096},\n]\n",
        fault: Some(Refusal::at(Cause::FanIn, 4)),
    }
}

fn a_loose_memory() -> Row {
    Row {
        text: "version = 1\nnode = [\n {name=\"m\", kind=\"manager\", bus=4, id_width=4, to=\"ram\"},\n {name=\"ram\", kind=\"memory\", bus=4, base=0, size=4096},\n {name=\"rom\", kind=\"memory\", bus=4, base=0, size=4096},\n]\n",
        fault: Some(Refusal::at(Cause::Loose, 3)),
    }
}

fn a_loose_mux() -> Row {
    Row {
        text: "version = 1\nnode = [\n {name=\"x\", kind=\"mux\", to=\"ram\"},\n {name=\"ram\", kind=\"memory\", bus=4, base=0, size=4096},\n]\n",
        fault: Some(Refusal::at(Cause::Loose, 1)),
    }
}

fn a_loose_node_behind_a_cycle() -> Row {
    Row {
        text: "version = 1\nnode = [\n {name=\"s1\", kind=\"slice\", to=\"s2\"},\n {name=\"s2\", kind=\"slice\", to=\"s1\"},\n {name=\"ram\", kind=\"memory\", bus=4, base=0, size=4096},\n]\n",
        fault: Some(Refusal::at(Cause::Loose, 3)),
    }
}

fn a_manager_that_none_names() -> Row {
    Row {
        text: "version = 1\nnode = [\n {name=\"m\", kind=\"manager\", bus=4, id_width=4, to=\"ram\"},\n {name=\"ram\", kind=\"memory\", bus=4, base=0, size=4096},\n]\n",
        fault: None,
    }
}

fn a_ring_of_slices() -> Row {
    Row {
        text: "version = 1\nnode = [\n {name=\"m\", kind=\"manager\", bus=4, id_width=4, to=\"ram\"},\n {name=\"ram\", kind=\"memory\", bus=4, base=0, size=8192},\n {name=\"s1\", kind=\"slice\", to=\"s2\"},\n {name=\"s2\", kind=\"slice\", to=\"s1\"},\n]\n",
        fault: Some(Refusal::at(Cause::Cycle, 3)),
    }
}

fn a_way_into_a_ring() -> Row {
    Row {
        text: "version = 1\nnode = [\n {name=\"a\", kind=\"manager\", bus=4, id_width=4, to=\"x\"},\n {name=\"x\", kind=\"mux\", to=\"s\"},\n {name=\"s\", kind=\"slice\", to=\"x\"},\n]\n",
        fault: Some(Refusal::at(Cause::Cycle, 2)),
    }
}

fn a_ring_behind_a_bad_region() -> Row {
    Row {
        text: "version = 1\nnode = [\n {name=\"m\", kind=\"manager\", bus=4, id_width=4, to=\"ram\"},\n {name=\"ram\", kind=\"memory\", bus=4, base=0, size=100},\n {name=\"s1\", kind=\"slice\", to=\"s2\"},\n {name=\"s2\", kind=\"slice\", to=\"s1\"},\n]\n",
        fault: Some(Refusal::at(Cause::Cycle, 3)),
    }
}

fn two_ways_that_meet_again() -> Row {
    Row {
        text: "version = 1\nnode = [\n {name=\"m\", kind=\"manager\", bus=4, id_width=4, to=\"d\"},\n {name=\"d\", kind=\"demux\", region=[{base=0, size=4096, to=\"x\"}, {base=4096, size=4096, to=\"s\"}]},\n {name=\"s\", kind=\"slice\", to=\"x\"},\n {name=\"x\", kind=\"mux\", to=\"ram\"},\n {name=\"ram\", kind=\"memory\", bus=4, base=0, size=8192},\n]\n",
        fault: None,
    }
}

#[test]
fn rows_of_code_6(rt: HostRuntime) -> Result<(), Fail> {
    for row in [
        a_name_twice(),
        a_name_thrice(),
        a_name_twice_behind_an_unknown_one(),
        names_that_differ_at_the_end(),
    ] {
        compare(&rt, &row);
    }
    Ok(())
}

#[test]
fn rows_of_code_7(rt: HostRuntime) -> Result<(), Fail> {
    for row in [
        an_unknown_name(),
        a_region_of_an_unknown_name(),
        an_unknown_name_behind_a_manager_that_is_named(),
        a_node_that_names_itself(),
    ] {
        compare(&rt, &row);
    }
    Ok(())
}

#[test]
fn rows_of_code_8(rt: HostRuntime) -> Result<(), Fail> {
    for row in [
        a_manager_that_is_named(),
        a_slice_named_twice(),
        a_memory_named_twice_by_one_node(),
        a_mux_named_twice(),
        fan_in_behind_a_loose_node(),
    ] {
        compare(&rt, &row);
    }
    Ok(())
}

#[test]
fn rows_of_code_9(rt: HostRuntime) -> Result<(), Fail> {
    for row in [
        a_loose_memory(),
        a_loose_mux(),
        a_loose_node_behind_a_cycle(),
        a_manager_that_none_names(),
    ] {
        compare(&rt, &row);
    }
    Ok(())
}

#[test]
fn rows_of_code_10(rt: HostRuntime) -> Result<(), Fail> {
    for row in [
        a_ring_of_slices(),
        a_way_into_a_ring(),
        a_ring_behind_a_bad_region(),
        two_ways_that_meet_again(),
    ] {
        compare(&rt, &row);
    }
    Ok(())
}
