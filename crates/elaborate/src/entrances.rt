//! Where document nodes are entered, and what the links above them are.

ghost use Rattle.std.specs.Prelude.{◌≡◌, ◌≤◌, ◌<◌, IfOk, length, slice_index_or};
ghost use Rattle.node_graph.specs.Order.{place_in};
ghost use Rattle.topology.specs.Document.{inputs_of, no_link};
ghost use Rattle.elaborate.specs.Inside.{HasFirsts};
ghost use Rattle.elaborate.specs.Plan.{entrance, entrances};

use crate::counts::first_of;
use std::alloc::{AllocError, Global};
use topology::{Kind, LinkKind, Wiring};

/// The place of a number in a list of at most 16, or the length of the list where it isn't there.
pub(crate) fn place_in(list: &[u32], number: u32) -> u32
    requires { length list.now ≤ 16 }
    ensures place { result ≡ place_in list.now number }
    ensures within { result ≤ 16 }
{
    for (place, other) in list.iter().enumerate() {
        if *other == number {
            return place as u32;
        }
    }
    list.len() as u32
}

/// The plan node at which a document node is entered from one of its uppers.
pub(crate) fn entrance(wiring: &Wiring, firsts: &[u32], upper: u32, place: u32) -> u32
    requires firsts { HasFirsts wiring.now firsts.now }
    requires inside { place < length wiring.now }
    ensures { result ≡ entrance wiring.now upper place }
{
    let first = first_of(wiring, firsts, place);
    match wiring.kind(place) {
        Kind::Crossbar => first + 2 * place_in(wiring.uppers(place), upper),
        _ => first,
    }
}

/// Where the targets of a document node are entered, in order of port.
pub(crate) fn entrances(
    alloc: Global,
    wiring: &Wiring,
    firsts: &[u32],
    place: u32,
) -> Result<Vec<u32>, AllocError>
    requires firsts { HasFirsts wiring.now firsts.now }
    requires inside { place < length wiring.now }
    ensures { IfOk result (λ lower. lower.items ≡ entrances wiring.now place) }
{
    let mut lower = Vec::new(alloc);
    let targets = wiring.targets(place);
    for target in targets {
        lower.push(entrance(wiring, firsts, place, *target))?;
    }
    Ok(lower)
}

/// What the link of an input is.
pub(crate) fn input_link(wiring: &Wiring, place: u32, input: usize) -> LinkKind
    requires { place < length wiring.now }
    ensures { result ≡ slice_index_or (inputs_of wiring.now place) input no_link }
{
    let uppers = wiring.uppers(place);
    if input < uppers.len() {
        wiring.link(uppers[input])
    } else {
        LinkKind::default()
    }
}
