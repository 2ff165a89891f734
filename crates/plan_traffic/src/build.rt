//! The transactions that lines ask for, made one by one.

ghost use Rattle.std.specs.Prelude.{◌≡◌, ◌+◌, ◌-◌, ◌<◌, ◌≤◌, ◌||◌, ◌++◌, ◌^◌, [], ◌∷◌, All, List, length, true, IfSome, nat_lt, None, Some, replicate};
ghost use Rattle.plain_text.specs.Lines.{lines};
ghost use Rattle.plan_traffic.specs.Inside.{traffic_item, traffic_items};
ghost use Rattle.plain_text.specs.Words.{words};
ghost use Rattle.plan_traffic.specs.Line.{Asks, Waits, line_said, write_with};
ghost use Rattle.plan_traffic.specs.Orders.{most_beats, most_transactions};
ghost use Rattle.plan_traffic.specs.Seen.{access_of, start_seen};
ghost use Rattle.plan_traffic.specs.Steps.{IsAdded};
ghost use Rattle.plan_traffic.specs.Traffic.{TrafficItem, after_wait, none_yet, after_issue, traffic_of, traffic_refusal};

use crate::data::take_data_words;
use crate::line::{TextForm, TextStart, first_pairs, other_pairs, read_form};
use crate::managers::manager_called;
use crate::order::{MOST_BEATS, MOST_TRANSACTIONS};
use crate::refusal::allowed_request;
use manager_node::{Txn, WriteByte};
use plain_text::lines::next_line;
use std::alloc::Global;
use topology::Wiring;

/// Of a manager: how many transactions it has, and how many of them stand before its latest `wait`
/// line.
#[derive(Debug, Clone, Copy, PartialEq, Eq)]
pub(crate) struct Count {
    pub all: u32,
    pub awaited: u32,
}

/// A transaction, the place of its manager, and its bytes.
#[derive(Drop)]
pub(crate) struct Item {
    pub manager: u32,
    pub txn: Txn,
    pub bytes: Vec<WriteByte>,
}

/// The transactions that all lines ask for, or `None` where the lines are refused or memory is wanting.
///
/// The lines are read once. What is wrong with them is told by `refusal`, which reads them again.
pub(crate) fn collect_items(alloc: Global, text: &[u8], nodes: &Wiring) -> Option<Vec<Item>>
    requires short { length text.now ≤ 16777216 }
    ensures accepted { IfSome result (λ _. traffic_refusal nodes.now (lines text.now) ≡ None) }
    ensures items { IfSome result (λ items. traffic_items items.items ≡ traffic_of nodes.now (lines text.now)) }
{
    let mut counts = no_counts(alloc, nodes.count() as usize)?;
    let mut items = Vec::new(alloc);
    let mut beats = 0;
    let mut rest = text;
    while !rest.is_empty() {
        let (line, more) = next_line(rest);
        beats += add_line(alloc, &mut items, &mut counts, line, nodes)?;
        if is_over(items.len(), beats) {
            return None;
        }
        rest = more;
    }
    Some(items)
}

// Whether there are more transactions or more beats than a traffic has at most.
fn is_over(transactions: usize, beats: u64) -> bool
    ensures { result ≡ (nat_lt most_transactions transactions || nat_lt most_beats beats) }
{
    transactions as u64 > MOST_TRANSACTIONS || beats > MOST_BEATS
}

// The counts of so many nodes, none of which has a transaction, where there is memory for them.
fn no_counts(alloc: Global, nodes: usize) -> Option<Vec<Count>>
    ensures { IfSome result (λ counts. counts.items ≡ replicate nodes none_yet) }
{
    let mut counts = Vec::new(alloc);
    match counts.resize(nodes, Count { all: 0, awaited: 0 }) {
        Ok(()) => Some(counts),
        Err(_) => None,
    }
}

// Adds what a line asks for, and answers the number of its beats; `None` where the line is refused or
// memory is wanting.
fn add_line(
    alloc: Global,
    items: &mut Vec<Item>,
    counts: &mut Vec<Count>,
    line: &[u8],
    nodes: &Wiring,
) -> Option<u64>
    requires many { length counts.old.items ≡ length nodes.now }
    requires few { length counts.old.items < 2 ^ 32 }
    requires short { length items.old.items < 2 ^ 32 - 1 }
    requires small { All (λ count. count.all ≤ length items.old.items) counts.old.items }
    ensures { IfSome result (IsAdded nodes.now (line_said line.now) (traffic_items items.old.items) counts.old.items (traffic_items items.new.items) counts.new.items) }
{
    match read_form(line)? {
        TextForm::Nothing => Some(0),
        TextForm::Wait(name) => add_wait(counts, name, nodes),
        TextForm::Read(start, beats) => {
            let bytes = Vec::new(alloc);
            add_burst(items, counts, nodes, &start, false, beats, bytes)
        }
        TextForm::Write(start, data) => {
            let (beats, bytes) = read_data(alloc, data, &start)?;
            add_burst(items, counts, nodes, &start, true, beats, bytes)
        }
    }
}

// Lets a manager wait. No transaction comes from it, and no beat.
fn add_wait(counts: &mut Vec<Count>, name: &[u8], nodes: &Wiring) -> Option<u64>
    requires many { length counts.old.items ≡ length nodes.now }
    ensures { (items : List TrafficItem) → IfSome result (IsAdded nodes.now (Some (Waits name.now)) items counts.old.items items counts.new.items) }
{
    let place = manager_called(nodes, name)?;
    counts[place as usize] = after_wait(counts[place as usize]);
    Some(0)
}

// The number of the data words of a line's rest, and their bytes. Room for all of these is taken first,
// since each is spelled by two characters.
fn read_data(alloc: Global, data: &[u8], start: &TextStart<'_>) -> Option<(u64, Vec<WriteByte>)>
    requires { start.now.size ≤ 7 }
    ensures { IfSome result (λ found. write_with (start_seen start.now) (words data.now) ≡ Some (Asks (access_of (start_seen start.now) true found.0 found.1.items))) }
{
    let mut bytes = Vec::with_capacity(alloc, data.len() / 2).ok()?;
    let beats = take_data_words(&mut bytes, data, first_pairs(start), other_pairs(start))?;
    Some((beats, bytes))
}

// Adds a burst, and answers the number of its beats.
fn add_burst(
    items: &mut Vec<Item>,
    counts: &mut Vec<Count>,
    nodes: &Wiring,
    start: &TextStart<'_>,
    write: bool,
    beats: u64,
    bytes: Vec<WriteByte>,
) -> Option<u64>
    requires many { length counts.old.items ≡ length nodes.now }
    requires few { length counts.old.items < 2 ^ 32 }
    requires short { length items.old.items < 2 ^ 32 - 1 }
    requires small { All (λ count. count.all ≤ length items.old.items) counts.old.items }
    ensures { IfSome result (IsAdded nodes.now (Some (Asks (access_of (start_seen start.now) write beats bytes.items))) (traffic_items items.old.items) counts.old.items (traffic_items items.new.items) counts.new.items) }
{
    let place = manager_called(nodes, start.manager)?;
    let request = allowed_request(start, beats, nodes, place)?;
    let count = counts[place as usize];
    let txn = Txn {
        number: items.len() as u32 + 1,
        write,
        request,
        after: count.awaited,
    };
    counts[place as usize] = after_issue(count);
    push_item(
        items,
        Item {
            manager: place,
            txn,
            bytes,
        },
    )?;
    Some(beats)
}

// The count after a `wait` line.
fn after_wait(count: Count) -> Count
    ensures { result ≡ after_wait count }
{
    Count {
        all: count.all,
        awaited: count.all,
    }
}

// The count after one more transaction.
fn after_issue(count: Count) -> Count
    requires { count.all < 2 ^ 32 - 1 }
    ensures { result ≡ after_issue count }
{
    Count {
        all: count.all + 1,
        awaited: count.awaited,
    }
}

// Adds an item, where there is memory for it.
fn push_item(items: &mut Vec<Item>, item: Item) -> Option<()>
    ensures { IfSome result (λ _. traffic_items items.new.items ≡ traffic_items items.old.items ++ traffic_item item ∷ []) }
{
    match items.push(item) {
        Ok(()) => Some(()),
        Err(_) => None,
    }
}
