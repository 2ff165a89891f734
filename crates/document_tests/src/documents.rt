//! Documents of whose causes the first one is told, and what is read of one that is accepted.

use document::{Document, read_document};
use refusals::{Cause, DocFault, Refusal};
use std::alloc::Global;
use std::process::Abort;
use std::test::Fail;

// A document, and why it is refused.
#[derive(Clone, Copy)]
struct Row {
    text: &'static str,
    refusal: Refusal,
}

// Why a document is refused.
fn fault_of(alloc: Global, text: &str) -> Option<DocFault> {
    match read_document(alloc, text.as_bytes()) {
        Ok(_) => None,
        Err(fault) => Some(fault),
    }
}

fn compare(rt: &(impl Alloc<A = std::alloc::Global> + Abort), row: &Row) {
    assert_eq!(rt;
        fault_of(rt.alloc(), row.text),
        Some(DocFault::Refused(row.refusal)),
        "at {}",
        row.text
    );
}

// No line is `%%`: that goes before all that the topology has.
fn no_separator() -> Row {
    Row {
        text: "=\n%% \n",
        refusal: Refusal::new(Cause::NoSeparator),
    }
}

// The first line is `%%`: the topology is empty.
fn no_topology() -> Row {
    Row {
        text: "%%\nread\n",
        refusal: Refusal::at(Cause::BadKey, 0),
    }
}

// A node that is refused goes before one that isn't built yet and before the traffic.
fn a_loose_node() -> Row {
    Row {
        text: "version = 1\nnode = [\n {name=\"m\", kind=\"manager\", bus=8, id_width=4, to=\"d\"},\n {name=\"d\", kind=\"down\", bus=4, to=\"ram\"},\n {name=\"ram\", kind=\"memory\", bus=4, base=0, size=4096},\n {name=\"rom\", kind=\"memory\", bus=4, base=0, size=4096},\n]\n%%\nread\n",
        refusal: Refusal::at(Cause::Loose, 4),
    }
}

// The first node of a kind that isn't built yet goes before the traffic.
fn an_unbuilt_node() -> Row {
    Row {
        text: "version = 1\nnode = [\n {name=\"m\", kind=\"manager\", bus=8, id_width=4, to=\"d\"},\n {name=\"d\", kind=\"down\", bus=4, to=\"ram\"},\n {name=\"ram\", kind=\"memory\", bus=4, base=0, size=4096},\n]\n%%\nread\n",
        refusal: Refusal::at(Cause::NotBuilt, 2),
    }
}

// Lines are counted from the one after `%%`.
fn a_bad_line() -> Row {
    Row {
        text: "version = 1\nnode = [\n {name=\"m\", kind=\"manager\", bus=4, id_width=4, to=\"ram\"},\n {name=\"ram\", kind=\"memory\", bus=4, base=0, size=4096},\n]\n%%\r\n\nread\n",
        refusal: Refusal::at(Cause::BadLine, 2),
    }
}

#[test]
fn the_first_cause_is_told(rt: HostRuntime) {
    compare(&rt, &no_separator());
    compare(&rt, &no_topology());
    compare(&rt, &a_loose_node());
    compare(&rt, &an_unbuilt_node());
    compare(&rt, &a_bad_line());
}

#[test]
fn a_document_is_read(rt: HostRuntime) -> Result<(), Fail> {
    let text =
        "version = 1\nnode = [\n {name=\"m\", kind=\"manager\", bus=4, id_width=4, to=\"ram\"},\n {name=\"ram\", kind=\"memory\", bus=4, base=0, size=4096},\n]\n%%\nwrite m 1 0x10 4 incr 0a0b0c0d\nread m 2 0x10 4 incr 1\n";
    let Ok(Document { plan, traffic }) = read_document(rt.alloc(), text.as_bytes()) else {
        return Err(Fail::from("refused"));
    };
    assert_eq!(rt; plan.nodes(), 2);
    assert_eq!(rt; traffic.count(), 2);
    Ok(())
}
