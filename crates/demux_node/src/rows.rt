//! The rows of a demux's table: by which port the head of each channel moves, if it does.

ghost use Rattle.std.specs.Prelude.{◌≡◌, ◌<◌, ◌==◌, IfSome, false, ℕ, is_some, length, map};
ghost use Rattle.std.specs.Int.{bit_at};
ghost use Rattle.std.specs.List.{list_any};
ghost use Rattle.std.specs.Option.{option_copied, option_map_or};
ghost use Rattle.axi_link.specs.LinkWords.{head_of};
ghost use Rattle.demux_node.specs.DemuxTable.{CanDemux, ar_port, aw_port, b_port, id_of_route, id_of_write, is_elsewhere};
ghost use Rattle.demux_node.specs.DemuxTable.{is_open_elsewhere, is_open_write, is_write_elsewhere, open_place, open_port, offered_b, offered_r, offers_b, offers_r, r_port, w_port};
ghost use Rattle.flight.specs.Entries.{place_of};

use crate::route::{Route, WriteRoute};
use crate::shape::Shape;
use axi_beats::{BBeat, RBeat};
use axi_link::Link;
use flight::Flight;
use node_core::{Turn, mark_ready};

/// AW: the port of the head's address, where a write fits, there is room, no write of its ID went by
/// another port, and none that lacks data did.
pub(crate) fn aw_port(links: &[Link], shape: &Shape, writes: &Flight<WriteRoute>) -> Option<u8>
    requires { CanDemux links.now shape.now }
    ensures port { result ≡ aw_port links.now shape.now writes.now }
    ensures within { IfSome result (λ port. port < length shape.now.lowers) }
{
    let head = shape.above(links).head_aw()?;
    let port = shape.port_for(head.addr);
    let takes = writes.len() < 16
        && shape.at(links, port).room_aw()
        && !has_write_elsewhere(writes, head.id, port)
        && !has_open_elsewhere(writes, port);
    if takes { Some(port) } else { None }
}

/// Whether a write of this ID went by another port.
fn has_write_elsewhere(writes: &Flight<WriteRoute>, id: u32, port: u8) -> bool
    ensures { result ≡ list_any (is_write_elsewhere id port) writes.now }
{
    for place in 0..writes.len() {
        if is_write_elsewhere(writes.get(place), id, port) {
            return true;
        }
    }
    false
}

fn is_write_elsewhere(write: &WriteRoute, id: u32, port: u8) -> bool
    ensures { result ≡ is_write_elsewhere id port write.now }
{
    write.id == id && write.port != port
}

/// Whether a write that lacks data went by another port.
fn has_open_elsewhere(writes: &Flight<WriteRoute>, port: u8) -> bool
    ensures { result ≡ list_any (is_open_elsewhere port) writes.now }
{
    for place in 0..writes.len() {
        if is_open_elsewhere(writes.get(place), port) {
            return true;
        }
    }
    false
}

fn is_open_elsewhere(write: &WriteRoute, port: u8) -> bool
    ensures { result ≡ is_open_elsewhere port write.now }
{
    write.is_open && write.port != port
}

/// W: the port of the oldest write that lacks data, where there is room.
pub(crate) fn w_port(links: &[Link], shape: &Shape, writes: &Flight<WriteRoute>) -> Option<u8>
    requires can { CanDemux links.now shape.now }
    requires ports { IfSome (open_port writes.now) (λ port. port < length shape.now.lowers) }
    ensures port { result ≡ w_port links.now shape.now writes.now }
    ensures within { IfSome result (λ port. port < length shape.now.lowers) }
{
    let port = open_port(writes)?;
    if shape.at(links, port).room_w() {
        Some(port)
    } else {
        None
    }
}

/// The port of the oldest write that lacks data.
fn open_port(writes: &Flight<WriteRoute>) -> Option<u8>
    ensures { result ≡ open_port writes.now }
{
    match oldest_open(writes) {
        Some(place) => Some(writes.get(place).port),
        None => None,
    }
}

/// The place of the oldest write that lacks data.
pub(crate) fn oldest_open(writes: &Flight<WriteRoute>) -> Option<usize>
    ensures place { result ≡ open_place writes.now }
    ensures within { IfSome result (λ place. place < length writes.now) }
{
    for place in 0..writes.len() {
        if is_open(writes.get(place)) {
            return Some(place);
        }
    }
    None
}

fn is_open(write: &WriteRoute) -> bool
    ensures { result ≡ is_open_write write.now }
{
    write.is_open
}

/// B: the port whose turn it is among those that offer a response whose ID has a write, where there is
/// room above.
pub(crate) fn b_port(
    links: &[Link],
    shape: &Shape,
    writes: &Flight<WriteRoute>,
    turn: &Turn,
) -> Option<u8>
    requires can { CanDemux links.now shape.now }
    requires ports { turn.now.ports ≡ length shape.now.lowers }
    ensures port { result ≡ b_port links.now shape.now writes.now turn.now }
    ensures within { IfSome result (λ port. port < length shape.now.lowers) }
{
    if shape.above(links).room_b() {
        turn.first(ports_b(links, shape, writes))
    } else {
        None
    }
}

/// The ports that offer such a response.
fn ports_b(links: &[Link], shape: &Shape, writes: &Flight<WriteRoute>) -> u32
    requires { CanDemux links.now shape.now }
    ensures { (port : ℕ) → (bit_at result port == 1) ≡ offers_b links.now shape.now writes.now port }
{
    let mut ready = 0;
    for port in 0..shape.ports() {
        ready = mark_ready(ready, port, offers_b(shape.at(links, port), writes));
    }
    ready
}

fn offers_b(link: &Link, writes: &Flight<WriteRoute>) -> bool
    ensures { result ≡ option_map_or (λ beat. is_some (place_of beat.id (map id_of_write writes.now))) (head_of link.now.b) false }
{
    match link.head_b() {
        Some(beat) => writes.oldest(beat.id).is_some(),
        None => false,
    }
}

/// The response that a port offers, where there is one.
pub(crate) fn offered_b<'a>(links: &'a [Link], shape: &Shape, port: Option<u8>) -> Option<&'a BBeat>
    requires can { CanDemux links.now shape.now }
    requires within { IfSome port (λ p. p < length shape.now.lowers) }
    ensures { option_copied result ≡ offered_b links.now shape.now port }
{
    match port {
        Some(port) => shape.at(links, port).head_b(),
        None => None,
    }
}

/// AR: the port of the head's address, where a read fits, there is room, and no read of its ID went by
/// another port.
pub(crate) fn ar_port(links: &[Link], shape: &Shape, reads: &Flight<Route>) -> Option<u8>
    requires { CanDemux links.now shape.now }
    ensures port { result ≡ ar_port links.now shape.now reads.now }
    ensures within { IfSome result (λ port. port < length shape.now.lowers) }
{
    let head = shape.above(links).head_ar()?;
    let port = shape.port_for(head.addr);
    let takes = reads.len() < 16
        && shape.at(links, port).room_ar()
        && !has_read_elsewhere(reads, head.id, port);
    if takes { Some(port) } else { None }
}

/// Whether a read of this ID went by another port.
fn has_read_elsewhere(reads: &Flight<Route>, id: u32, port: u8) -> bool
    ensures { result ≡ list_any (is_elsewhere id port) reads.now }
{
    for place in 0..reads.len() {
        if is_elsewhere(reads.get(place), id, port) {
            return true;
        }
    }
    false
}

fn is_elsewhere(read: &Route, id: u32, port: u8) -> bool
    ensures { result ≡ is_elsewhere id port read.now }
{
    read.id == id && read.port != port
}

/// R: the port whose turn it is among those that offer read data whose ID has a read, where there is
/// room above.
pub(crate) fn r_port(
    links: &[Link],
    shape: &Shape,
    reads: &Flight<Route>,
    turn: &Turn,
) -> Option<u8>
    requires can { CanDemux links.now shape.now }
    requires ports { turn.now.ports ≡ length shape.now.lowers }
    ensures port { result ≡ r_port links.now shape.now reads.now turn.now }
    ensures within { IfSome result (λ port. port < length shape.now.lowers) }
{
    if shape.above(links).room_r() {
        turn.first(ports_r(links, shape, reads))
    } else {
        None
    }
}

/// The ports that offer such read data.
fn ports_r(links: &[Link], shape: &Shape, reads: &Flight<Route>) -> u32
    requires { CanDemux links.now shape.now }
    ensures { (port : ℕ) → (bit_at result port == 1) ≡ offers_r links.now shape.now reads.now port }
{
    let mut ready = 0;
    for port in 0..shape.ports() {
        ready = mark_ready(ready, port, offers_r(shape.at(links, port), reads));
    }
    ready
}

fn offers_r(link: &Link, reads: &Flight<Route>) -> bool
    ensures { result ≡ option_map_or (λ beat. is_some (place_of beat.id (map id_of_route reads.now))) (head_of link.now.r) false }
{
    match link.head_r() {
        Some(beat) => reads.oldest(beat.id).is_some(),
        None => false,
    }
}

/// The read data that a port offers, where there is one.
pub(crate) fn offered_r<'a>(links: &'a [Link], shape: &Shape, port: Option<u8>) -> Option<&'a RBeat>
    requires can { CanDemux links.now shape.now }
    requires within { IfSome port (λ p. p < length shape.now.lowers) }
    ensures { option_copied result ≡ offered_r links.now shape.now port }
{
    match port {
        Some(port) => shape.at(links, port).head_r(),
        None => None,
    }
}
