//! Documents that are refused, and near ones that are accepted: here those of codes 4 and 5, which are told of the text and
//! of the shape of its tables.

mod limits;
mod wiring;

use refusals::{Cause, DocFault, Refusal};
use std::alloc::Global;
use std::process::Abort;
use std::test::Fail;
use topology::read_topology;

// A document, and why it is refused; `None` where it is accepted.
#[derive(Clone, Copy)]
struct Row {
    text: &'static str,
    fault: Option<Refusal>,
}

// Why a text is refused.
fn fault_of(alloc: Global, text: &str) -> Option<DocFault> {
    match read_topology(alloc, text) {
        Ok(_) => None,
        Err(fault) => Some(fault),
    }
}

fn compare(rt: &(impl Alloc<A = std::alloc::Global> + Abort), row: &Row) {
    assert_eq!(rt;
        fault_of(rt.alloc(), row.text),
        row.fault.map(|refusal| DocFault::Refused(refusal)),
        "at {}",
        row.text
    );
}

fn an_equals_sign_alone() -> Row {
    Row {
        text: "=\n",
        fault: Some(Refusal::at(Cause::TomlRefused, 0)),
    }
}

fn a_key_given_twice() -> Row {
    Row {
        text: "version = 1\nversion = 1\nnode = []\n",
        fault: Some(Refusal::at(Cause::TomlRefused, 0)),
    }
}

fn a_string_without_an_end() -> Row {
    Row {
        text: "version = 1\nnode = [{name=\"m}]\n",
        fault: Some(Refusal::at(Cause::TomlRefused, 0)),
    }
}

fn tables_by_headers() -> Row {
    Row {
        text: "version = 1\n[[node]]\nname = \"m\"\nkind = \"manager\"\nbus = 4\nid_width = 4\nto = \"ram\"\n[[node]]\nname = \"ram\"\nkind = \"memory\"\nbus = 4\nbase = 0\nsize = 0x1_000\n",
        fault: None,
    }
}

fn no_text() -> Row {
    Row {
        text: "",
        fault: Some(Refusal::at(Cause::BadKey, 0)),
    }
}

fn no_nodes() -> Row {
    Row {
        text: "version = 1\nnode = []\n",
        fault: Some(Refusal::at(Cause::BadKey, 0)),
    }
}

fn a_second_version() -> Row {
    Row {
        text: "version = 2\nnode = [\n {name=\"m\", kind=\"manager\", bus=4, id_width=4, to=\"ram\"},\n {name=\"ram\", kind=\"memory\", bus=4, base=0, size=8192},\n]\n",
        fault: Some(Refusal::at(Cause::BadKey, 0)),
    }
}

fn a_third_top_key() -> Row {
    Row {
        text: "title = \"x\"\nversion = 1\nnode = [\n {name=\"m\", kind=\"manager\", bus=4, id_width=4, to=\"ram\"},\n {name=\"ram\", kind=\"memory\", bus=4, base=0, size=8192},\n]\n",
        fault: Some(Refusal::at(Cause::BadKey, 0)),
    }
}

fn a_node_that_is_no_table() -> Row {
    Row {
        text: "version = 1\nnode = [{name=\"m\"}, 7]\n",
        fault: Some(Refusal::at(Cause::BadKey, 0)),
    }
}

fn a_bus_of_12_bytes() -> Row {
    Row {
        text: "version = 1\nnode = [\n {name=\"m\", kind=\"manager\", bus=4, id_width=4, to=\"ram\"},\n {name=\"ram\", kind=\"memory\", bus=12, base=0, size=4096},\n]\n",
        fault: Some(Refusal::at(Cause::BadKey, 2)),
    }
}

fn a_key_of_another_kind() -> Row {
    Row {
        text: "version = 1\nnode = [\n {name=\"m\", kind=\"manager\", bus=4, id_width=4, to=\"ram\", fill=1},\n {name=\"ram\", kind=\"memory\", bus=4, base=0, size=4096},\n]\n",
        fault: Some(Refusal::at(Cause::BadKey, 1)),
    }
}

fn a_name_of_33_letters() -> Row {
    Row {
        text: "version = 1\nnode = [\n {name=\"m\", kind=\"manager\", bus=4, id_width=4, to=\"aaaaaaaaaaaaaaaaaaaaaaaaaaaaaaaaa\"},\n {name=\"aaaaaaaaaaaaaaaaaaaaaaaaaaaaaaaaa\", kind=\"memory\", bus=4, base=0, size=4096},\n]\n",
        fault: Some(Refusal::at(Cause::BadKey, 2)),
    }
}

fn a_name_of_32_letters() -> Row {
    Row {
        text: "version = 1\nnode = [\n {name=\"m\", kind=\"manager\", bus=4, id_width=4, to=\"aaaaaaaaaaaaaaaaaaaaaaaaaaaaaaaa\"},\n {name=\"aaaaaaaaaaaaaaaaaaaaaaaaaaaaaaaa\", kind=\"memory\", bus=4, base=0, size=4096},\n]\n",
        fault: None,
    }
}

fn no_delays() -> Row {
    Row {
        text: "version = 1\nnode = [\n {name=\"m\", kind=\"manager\", bus=4, id_width=4, to=\"ram\"},\n {name=\"ram\", kind=\"memory\", bus=4, base=0, size=4096, give=[]},\n]\n",
        fault: Some(Refusal::at(Cause::BadKey, 2)),
    }
}

fn a_delay_of_64_rounds() -> Row {
    Row {
        text: "version = 1\nnode = [\n {name=\"m\", kind=\"manager\", bus=4, id_width=4, to=\"ram\"},\n {name=\"ram\", kind=\"memory\", bus=4, base=0, size=4096, give=[63, 64]},\n]\n",
        fault: Some(Refusal::at(Cause::BadKey, 2)),
    }
}

fn a_delay_of_63_rounds() -> Row {
    Row {
        text: "version = 1\nnode = [\n {name=\"m\", kind=\"manager\", bus=4, id_width=4, to=\"ram\"},\n {name=\"ram\", kind=\"memory\", bus=4, base=0, size=4096, give=[63]},\n]\n",
        fault: None,
    }
}

fn a_bad_key_behind_a_double_name() -> Row {
    Row {
        text: "version = 1\nnode = [\n {name=\"m\", kind=\"manager\", bus=4, id_width=4, to=\"ram\"},\n {name=\"ram\", kind=\"memory\", bus=4, base=0, size=4096},\n {name=\"m\", kind=\"manager\", bus=4, id_width=4, to=\"ram\"},\n {name=\"m\", kind=\"manager\", bus=4, id_width=17, to=\"ram\"},\n]\n",
        fault: Some(Refusal::at(Cause::BadKey, 4)),
    }
}

fn a_small_system() -> Row {
    Row {
        text: "version = 1\nnode = [\n {name=\"cpu\", kind=\"manager\", bus=8, id_width=4, to=\"x\"},\n {name=\"dma\", kind=\"manager\", bus=4, id_width=2, to=\"up\"},\n {name=\"up\", kind=\"up\", to=\"x\", bus=8},\n {name=\"x\", kind=\"crossbar\", region=[{base=0x80000000, size=0x100000, to=\"rm\"}, {base=0x10000000, size=0x1000, to=\"lb\"}]},\n {name=\"rm\", kind=\"remap\", to=\"ram\", id_width=2},\n {name=\"lb\", kind=\"lite\", to=\"uart\"},\n {name=\"ram\", kind=\"memory\", bus=8, base=0x80000000, size=0x100000},\n {name=\"uart\", kind=\"lite_memory\", base=0x10000000, size=0x1000, fill=90},\n]\n",
        fault: None,
    }
}

#[test]
fn rows_of_code_0(rt: HostRuntime) -> Result<(), Fail> {
    for row in [a_small_system()] {
        compare(&rt, &row);
    }
    Ok(())
}

#[test]
fn rows_of_code_4(rt: HostRuntime) -> Result<(), Fail> {
    for row in [
        an_equals_sign_alone(),
        a_key_given_twice(),
        a_string_without_an_end(),
        tables_by_headers(),
    ] {
        compare(&rt, &row);
    }
    Ok(())
}

#[test]
fn rows_of_code_5(rt: HostRuntime) -> Result<(), Fail> {
    for row in [
        no_text(),
        no_nodes(),
        a_second_version(),
        a_third_top_key(),
        a_node_that_is_no_table(),
        a_bus_of_12_bytes(),
        a_key_of_another_kind(),
        a_name_of_33_letters(),
        a_name_of_32_letters(),
        no_delays(),
        a_delay_of_64_rounds(),
        a_delay_of_63_rounds(),
        a_bad_key_behind_a_double_name(),
    ] {
        compare(&rt, &row);
    }
    Ok(())
}
