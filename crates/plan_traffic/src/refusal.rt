//! Why lines of traffic are refused.

ghost use Rattle.std.specs.Prelude.{◌≡◌, ◌-◌, ◌<◌, ◌≤◌, ◌^◌, ℕ, [], false, IfSome, None, Some, length};
ghost use Rattle.axi_beats.specs.Bus.{IsBusWidth};
ghost use Rattle.burst_address.specs.Legal.{broken_rule};
ghost use Rattle.plain_text.specs.Lines.{lines};
ghost use Rattle.topology.specs.Document.{node_at};
ghost use Rattle.plan_traffic.specs.LineRefusals.{burst_refusal, lesser_of, least_refusal, line_refusal, request_said, rule_number};
ghost use Rattle.plan_traffic.specs.Ports.{IsPort};
ghost use Rattle.plan_traffic.specs.Seen.{access_of, access_seen, start_seen};

use crate::line::{TextAccess, TextLine, TextStart, read_line};
use crate::managers::manager_called;
use axi_beats::{Addr, Burst, Tag};
use burst_address::{BurstRule, legal};
use plain_text::lines::next_line;
use refusals::{Cause, Refusal};
use topology::Wiring;

// The refusal with the lesser code, and of two with one code the first.
fn lesser_of(first: Option<Refusal>, other: Option<Refusal>) -> Option<Refusal>
    ensures { result ≡ lesser_of first other }
{
    match first {
        Some(earlier) => match other {
            Some(later) if later.code < earlier.code => other,
            _ => first,
        },
        None => other,
    }
}

/// Of the refusals of all lines the one with the least code, and of those with one code the first.
#[tactic(auto, using(crate::proofs::LesserLemmas::least_assoc, crate::proofs::LesserLemmas::least_none))]
pub(crate) fn least_refusal(text: &[u8], nodes: &Wiring) -> Option<Refusal>
    requires short { length text.now < 2 ^ 32 - 1 }
    ensures { result ≡ least_refusal nodes.now 1 (lines text.now) }
{
    let mut found = None;
    let mut number = 1;
    let mut rest = text;
    while !rest.is_empty() {
        let (line, more) = next_line(rest);
        found = lesser_of(found, line_refusal(line, number, nodes));
        number += 1;
        rest = more;
    }
    found
}

// Why the line with this number is refused.
fn line_refusal(line: &[u8], number: u32, nodes: &Wiring) -> Option<Refusal>
    ensures { result ≡ line_refusal nodes.now number line.now }
{
    match read_line(line) {
        None => Some(Refusal::at(Cause::BadLine, number)),
        Some(TextLine::Nothing) => None,
        Some(TextLine::Wait(name)) => match manager_called(nodes, name) {
            Some(_) => None,
            None => Some(Refusal::at(Cause::UnknownManager, number)),
        },
        Some(TextLine::Burst(access)) => match manager_called(nodes, access.start.manager) {
            Some(place) => burst_refusal(&access, number, nodes, place),
            None => Some(Refusal::at(Cause::UnknownManager, number)),
        },
    }
}

// Why a burst is refused, where the line with this number asks it of the manager at this place.
fn burst_refusal(
    access: &TextAccess<'_>,
    number: u32,
    nodes: &Wiring,
    place: u32,
) -> Option<Refusal>
    requires inside { place < length nodes.now }
    requires port { IsPort (node_at nodes.now place) }
    ensures { result ≡ burst_refusal number (access_seen access.now) (Some (node_at nodes.now place)) }
{
    if u64::from(access.start.id) >= 1 << nodes.id_width(place) {
        return Some(Refusal::at(Cause::BadId, number));
    }
    let rule = broken_rule(access, nodes.bus(place))?;
    Some(Refusal::illegal_burst(number, rule_number(rule)))
}

/// The request for a burst that the manager at a place may issue, or `None` where the burst is refused.
/// A write and a read that start alike and have as many beats are refused alike.
pub(crate) fn allowed_request(
    start: &TextStart<'_>,
    beats: u64,
    nodes: &Wiring,
    place: u32,
) -> Option<Addr>
    requires inside { place < length nodes.now }
    requires port { IsPort (node_at nodes.now place) }
    ensures allowed { IfSome result (λ _. (number : ℕ) → burst_refusal number (access_of (start_seen start.now) false beats []) (Some (node_at nodes.now place)) ≡ None) }
    ensures request { IfSome result (λ request. request ≡ request_said (access_of (start_seen start.now) false beats [])) }
    ensures few { IfSome result (λ _. beats ≤ 256) }
{
    let last = beats.saturating_sub(1);
    if last > 255 || u64::from(start.id) >= 1 << nodes.id_width(place) {
        return None;
    }
    let request = request_from(start, last as u8);
    match legal(&request, nodes.bus(place)) {
        Ok(()) => Some(request),
        Err(_) => None,
    }
}

// The number of a rule that a burst can break (Arm IHI 0022, burst size, burst length, burst type).
fn rule_number(rule: BurstRule) -> u8
    ensures { result ≡ rule_number rule }
{
    match rule {
        BurstRule::Size => 1,
        BurstRule::Length => 2,
        BurstRule::WrapAlign => 3,
        BurstRule::Page => 4,
    }
}

// The first rule that a burst breaks on a bus.
fn broken_rule(access: &TextAccess<'_>, bus: u8) -> Option<BurstRule>
    requires { IsBusWidth bus }
    ensures { result ≡ broken_rule (request_said (access_seen access.now)) bus }
{
    let last = access.beats.saturating_sub(1);
    if last <= 255 {
        broken_by(&request_said(access, last as u8), bus)
    } else {
        too_long(access, bus)
    }
}

// The first rule that a burst of over 256 beats breaks: that of size, or else that of length.
//
// No request can name so many beats, so the rule of size is judged by a FIXED burst of one beat, which
// can break no other rule.
fn too_long(access: &TextAccess<'_>, bus: u8) -> Option<BurstRule>
    requires bus { IsBusWidth bus }
    requires long { 256 < access.now.beats }
    ensures { result ≡ broken_rule (request_said (access_seen access.now)) bus }
{
    let one_beat = Addr {
        burst: Burst::Fixed,
        ..request_said(access, 0)
    };
    match broken_by(&one_beat, bus) {
        Some(rule) => Some(rule),
        None => Some(BurstRule::Length),
    }
}

// The first rule that a request breaks on a bus.
fn broken_by(request: &Addr, bus: u8) -> Option<BurstRule>
    requires { IsBusWidth bus }
    ensures { result ≡ broken_rule request.now bus }
{
    match legal(request, bus) {
        Ok(()) => None,
        Err(rule) => Some(rule),
    }
}

// The request for a burst, the number of whose last beat is `len`, counted from 0. Its tag isn't used,
// since a manager tags its beats itself.
fn request_said(access: &TextAccess<'_>, len: u8) -> Addr
    ensures { result ≡ record (request_said (access_seen access.now)) { len = len } }
{
    request_from(&access.start, len)
}

// The same, for a burst that starts so.
fn request_from(start: &TextStart<'_>, len: u8) -> Addr
    ensures { result ≡ record (request_said (access_of (start_seen start.now) false 1 [])) { len = len } }
{
    Addr {
        id: start.id,
        addr: start.addr,
        len,
        size: start.size,
        burst: start.burst,
        tag: Tag::default(),
    }
}
