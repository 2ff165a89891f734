//! The whole input of a run, and what is planned of it.

ghost use Rattle.std.specs.Prelude.{◌≡◌, ◌≤◌, length, true, false, IfErr, IfOk, Ok, OnErr, OnOk};
ghost use Rattle.std.specs.Str.{is_utf8};
ghost use Rattle.document.specs.Document.{IsDocumentFault, bound_on, document_of, network_in, planned_of, wired_with};
ghost use Rattle.plain_text.specs.Lines.{lines};
ghost use Rattle.plan_traffic.specs.Traffic.{traffic_refusal};
ghost use Rattle.refusals.specs.Refusal.{refused_for};
ghost use Rattle.refusals.specs.declared.cause.Cause.TheVariants.{NotText};
ghost use Rattle.topology.specs.Read.{topology_of};

use axi_beats::NoMemory;
use elaborate::{Plan, plan_of, unbuilt};
use plain_text::separator::cut_text;
use plan_traffic::{Traffic, read_traffic, round_bound};
use refusals::{Cause, DocFault, Refusal};
use std::alloc::Global;
use topology::read_topology;

/// The most bytes that an input may have, be it a document or a trace.
pub const INPUT_LIMIT: usize = 16_777_216;

/// What a document asks for: a network, and the transactions on it.
#[derive(Drop)]
pub struct Document {
    pub plan: Plan,
    pub traffic: Traffic,
}

/// What is planned of a document: its network, and by how many rounds the run of its traffic is finished at the latest, where
/// the traffic isn't refused.
#[derive(Drop)]
pub struct Planned {
    pub plan: Plan,
    pub bound: Option<u64>,
}

/// What the input asks for.
///
/// Time is linear in the input's length, but for look-ups of names, and memory is that of the network's
/// plan and of the transactions.
///
/// # Errors
///
/// Of the causes for which the input is refused the first one: it is too long; it is no text; it has no line `%%`;
/// its topology is refused; a kind of node isn't built yet; its traffic is refused. Or there was no memory,
/// which says nothing of the input.
pub fn read_document(alloc: Global, input: &[u8]) -> Result<Document, DocFault>
    ensures asked { IfOk result (λ read. document_of input.now ≡ Ok (record { nodes = read.plan; items = read.traffic })) }
    ensures fault { IfErr result (IsDocumentFault (document_of input.now)) }
{
    let (plan, text) = read_network(alloc, input)?;
    let traffic = read_traffic(alloc, text, &plan)?;
    Ok(Document { plan, traffic })
}

/// What is planned of the input.
///
/// # Errors
///
/// The causes are those of [`read_document`], but for its traffic, which is never refused here.
pub fn read_planned(alloc: Global, input: &[u8]) -> Result<Planned, DocFault>
    ensures planned { IfOk result (λ read. planned_of input.now ≡ Ok (record { nodes = read.plan; bound = read.bound })) }
    ensures fault { IfErr result (IsDocumentFault (planned_of input.now)) }
{
    let (plan, text) = read_network(alloc, input)?;
    match traffic_bound(alloc, text, &plan) {
        Ok(bound) => Ok(Planned { plan, bound }),
        Err(NoMemory) => Err(DocFault::NoMemory),
    }
}

// By how many rounds the run of a traffic on a plan is finished at the latest; none where the traffic is refused.
fn traffic_bound(alloc: Global, text: &str, plan: &Plan) -> Result<Option<u64>, NoMemory>
    requires { length text.now ≤ INPUT_LIMIT }
    ensures { IfOk result (λ bound. bound ≡ bound_on plan.now (lines text.now) (traffic_refusal plan.now (lines text.now))) }
{
    match read_traffic(alloc, text, plan) {
        Ok(traffic) => Ok(Some(round_bound(plan, &traffic))),
        Err(DocFault::Refused(_)) => Ok(None),
        Err(DocFault::NoMemory) => Err(NoMemory),
    }
}

// The plan of the input's topology, and the text of its traffic.
fn read_network(alloc: Global, input: &[u8]) -> Result<(Plan, &str), DocFault>
    ensures network { IfOk result (λ read. network_in input.now ≡ Ok (record { nodes = read.0; lines = lines read.1.now })) }
    ensures short { IfOk result (λ read. length read.1.now ≤ INPUT_LIMIT) }
    ensures fault { IfErr result (IsDocumentFault (network_in input.now)) }
{
    if input.len() > INPUT_LIMIT {
        return Err(DocFault::Refused(Refusal::new(Cause::InputTooLong)));
    }
    let text = match input_text(input) {
        Ok(text) => text,
        Err(refusal) => return Err(DocFault::Refused(refusal)),
    };
    match cut_text(text) {
        Some((topology, traffic)) => read_parts(alloc, topology, traffic),
        None => Err(DocFault::Refused(Refusal::new(Cause::NoSeparator))),
    }
}

/// The input as the text that it is.
///
/// # Errors
///
/// It isn't UTF-8.
pub fn input_text(input: &[u8]) -> Result<&str, Refusal>
    ensures text { IfOk result (λ text. text.now ≡ input.now) }
    ensures utf8 { OnOk result (is_utf8 input.now ≡ true) }
    ensures other { OnErr result (is_utf8 input.now ≡ false) }
    ensures refused { IfErr result (λ refusal. refusal ≡ refused_for NotText) }
{
    match str::from_utf8(input) {
        Ok(text) => Ok(text),
        Err(_) => Err(Refusal::new(Cause::NotText)),
    }
}

// The plan of a topology's text, each of whose nodes is of a kind that is built, and the text of its traffic.
fn read_parts<'a>(
    alloc: Global,
    topology: &str,
    traffic: &'a str,
) -> Result<(Plan, &'a str), DocFault>
    requires { length traffic.now ≤ INPUT_LIMIT }
    ensures network { IfOk result (λ read. wired_with (lines traffic.now) (topology_of topology.now) ≡ Ok (record { nodes = read.0; lines = lines read.1.now })) }
    ensures short { IfOk result (λ read. length read.1.now ≤ INPUT_LIMIT) }
    ensures fault { IfErr result (IsDocumentFault (wired_with (lines traffic.now) (topology_of topology.now))) }
{
    let wiring = read_topology(alloc, topology)?;
    if let Some(node) = unbuilt(&wiring) {
        return Err(DocFault::Refused(Refusal::at(Cause::NotBuilt, node + 1)));
    }
    match plan_of(alloc, wiring) {
        Ok(plan) => Ok((plan, traffic)),
        Err(_) => Err(DocFault::NoMemory),
    }
}
