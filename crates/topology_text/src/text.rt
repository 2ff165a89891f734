//! The text of a topology, read as the nodes of its document.

ghost use Rattle.std.specs.Prelude.{◌≡◌, IfErr, IfOk, Ok};
ghost use Rattle.toml.specs.View.{table_view};
ghost use Rattle.topology_text.specs.Formed.{AreFormed};
ghost use Rattle.topology_text.specs.Shape.{document_in};
ghost use Rattle.topology_text.specs.Text.{IsTopologyFault, nodes_of_text, or_bad_key};

use crate::node::Node;
use crate::read::{read_nodes, tables_in};
use refusals::{Cause, DocFault, Refusal};
use std::alloc::Global;
use toml::Table;

/// The nodes of a topology's text, each with its keys, defaults filled in.
///
/// # Errors
///
/// Code 4 where the text isn't TOML; else code 5 with the number, from 1, of the first element of the
/// array `node` that isn't a table of the shape of its kind, or with 0 where the top level has another
/// shape. Or there was no memory, which says nothing of the text.
pub fn read_text(alloc: Global, text: &str) -> Result<Vec<Node>, DocFault>
    ensures nodes { IfOk result (λ nodes. nodes_of_text text.now ≡ Ok nodes.items) }
    ensures formed { IfOk result (λ nodes. AreFormed nodes.items) }
    ensures fault { IfErr result (IsTopologyFault (nodes_of_text text.now)) }
{
    match toml::table_from_str(alloc, text) {
        Ok(top) => read_document(alloc, &top),
        Err(error) if error.is_memory() => Err(DocFault::NoMemory),
        Err(_) => Err(DocFault::Refused(Refusal::new(Cause::TomlRefused))),
    }
}

// The nodes of a document.
fn read_document(alloc: Global, top: &Table) -> Result<Vec<Node>, DocFault>
    ensures nodes { IfOk result (λ nodes. or_bad_key (document_in (table_view top.now)) ≡ Ok nodes.items) }
    ensures fault { IfErr result (IsTopologyFault (or_bad_key (document_in (table_view top.now)))) }
{
    const MOST: usize = u32::MAX as usize - 1;
    let Some(tables) = tables_in(top) else {
        return Err(DocFault::Refused(Refusal::at(Cause::BadKey, 0)));
    };
    // Nodes are counted by 32 bits.
    if tables.len() > MOST {
        return Err(DocFault::NoMemory);
    }
    match read_nodes(alloc, tables) {
        Ok(Ok(nodes)) => Ok(nodes),
        Ok(Err(number)) => Err(DocFault::Refused(Refusal::at(Cause::BadKey, number))),
        Err(_) => Err(DocFault::NoMemory),
    }
}
