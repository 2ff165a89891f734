//! The names of a document's nodes, each at the number of its node.

ghost use Rattle.std.specs.Prelude.{◌≡◌, ◌<◌, ◌^◌, ◌++◌, ◌∷◌, [], IfErr, IfOk, IfSome, None, OnOk, Some, bytes_eq, is_none, length, not, position, true};
ghost use Rattle.std.specs.List.{list_any};
ghost use Rattle.topology.specs.Document.{NamedRegion, names_of};
ghost use Rattle.topology.specs.Joined.{name_place, node_names, texts};
ghost use Rattle.topology.specs.Read.{first_with};
ghost use Rattle.topology.specs.Refused as cause;

use crate::kinds::{has_regions, is_memory, node_at};
use indexmap::IndexSet;
use std::alloc::{AllocError, Global};
use topology_text::{NamedSpan, Node};

/// The names of the nodes, in their order, so that each is found at its node's number; or the number of
/// the first node that has the name of an earlier one.
///
/// # Errors
///
/// There was no memory for them.
pub(crate) fn names_of<'a>(
    alloc: Global,
    nodes: &'a [Node],
) -> Result<Result<IndexSet<&'a str>, u32>, AllocError>
    requires few { length nodes.now < 2 ^ 32 }
    ensures first { IfOk result (λ found. IfErr found (λ place. first_with cause.is_duplicate nodes.now ≡ Some place)) }
    ensures none { IfOk result (λ found. IfOk found (λ names. first_with cause.is_duplicate nodes.now ≡ None)) }
    ensures names { IfOk result (λ found. IfOk found (λ names. texts names.keys ≡ node_names nodes.now)) }
{
    let mut names = IndexSet::new(alloc);
    for place in 0..nodes.len() as u32 {
        if !add_name(&mut names, node_at(nodes, place).name())? {
            return Ok(Err(place));
        }
    }
    Ok(Ok(names))
}

// Puts a name behind the others, and tells whether it is new.
fn add_name<'a>(names: &mut IndexSet<&'a str>, name: &'a str) -> Result<bool, AllocError>
    ensures added { IfOk result (λ added. added ≡ not (list_any (λ key. bytes_eq name.now key.now) names.old.keys)) }
    ensures keys { IfOk result (λ added. added ≡ true → names.new.keys ≡ names.old.keys ++ name.entry ∷ []) }
{
    match names.insert(name) {
        Ok(added) => Ok(added),
        Err(_) => Err(AllocError),
    }
}

/// The number of the node with this name.
pub(crate) fn named(names: &IndexSet<&str>, name: &str) -> Option<u32>
    requires { length names.now.keys < 2 ^ 32 }
    ensures { result ≡ position (λ key. bytes_eq name.now key.now) names.now.keys }
{
    let place = names.get_index_of(&name)?;
    Some(place as u32)
}

/// The first node that names one that isn't there.
pub(crate) fn first_unknown(nodes: &[Node], names: &IndexSet<&str>) -> Option<u32>
    requires few { length nodes.now < 2 ^ 32 }
    requires names { texts names.now.keys ≡ node_names nodes.now }
    ensures { result ≡ first_with cause.names_unknown nodes.now }
{
    for place in 0..nodes.len() as u32 {
        if names_unknown(nodes, place, names) {
            return Some(place);
        }
    }
    None
}

// Whether the node of this number names one that isn't there.
fn names_unknown(nodes: &[Node], place: u32, names: &IndexSet<&str>) -> bool
    requires few { length nodes.now < 2 ^ 32 }
    requires inside { place < length nodes.now }
    requires names { texts names.now.keys ≡ node_names nodes.now }
    ensures { result ≡ cause.names_unknown nodes.now place }
{
    is_unknown(node_at(nodes, place), names)
}

// Whether a node names what isn't among these names.
fn is_unknown(node: &Node, names: &IndexSet<&str>) -> bool
    requires few { length names.now.keys < 2 ^ 32 }
    ensures { result ≡ list_any (λ name. is_none (name_place names.now.keys name)) (names_of node.now) }
{
    if has_regions(node.kind()) {
        return is_any_unknown(node.region(), names);
    }
    !is_memory(node.kind()) && is_unknown_name(node.to(), names)
}

// Whether a name isn't among these names.
fn is_unknown_name(name: &str, names: &IndexSet<&str>) -> bool
    requires few { length names.now.keys < 2 ^ 32 }
    ensures { result ≡ is_none (name_place names.now.keys name.now) }
{
    named(names, name).is_none()
}

// Whether one of these regions names what isn't among these names.
fn is_any_unknown(regions: &[NamedSpan], names: &IndexSet<&str>) -> bool
    requires few { length names.now.keys < 2 ^ 32 }
    ensures { result ≡ list_any (λ (region : NamedRegion). is_none (name_place names.now.keys region.to)) regions.now }
{
    regions
        .iter()
        .any(|region| is_unknown_name(region.to(), names))
}
