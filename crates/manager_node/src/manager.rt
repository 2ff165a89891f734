//! `ManagerNode`, seen in clauses as its state and its takes and puts of the round.

ghost use Rattle.std.specs.Prelude.{◌≡◌, ◌<◌, ◌≤◌, ◌+◌, All, IfOk, IfSome, IsSome, IsTrue, length, true};
ghost use Rattle.std.specs.Prelude.{false, is_some, slice_index_or, vec_len};
ghost use Rattle.std.specs.Option.{option_copied, option_map};
ghost use Rattle.axi_beats.specs.Bus.{IsBusWidth};
ghost use Rattle.node_core.specs.Acted.{opened};
ghost use Rattle.node_core.specs.Paces.{new_paces};
ghost use Rattle.node_core.specs.Rows.{beat_where};
ghost use Rattle.burst_address.specs.Legal.{IsLegal};
ghost use Rattle.manager_node.specs.Answer.{is_last, unanswered};
ghost use Rattle.manager_node.specs.ManagerState.{CanManager, IsDue, IsManager, answer_of, is_done};
ghost use Rattle.manager_node.specs.ManagerInside.{IsPossible, wishes_of};
ghost use Rattle.manager_node.specs.ManagerState.{new_manager};
ghost use Rattle.manager_node.specs.ManagerTable.{answering, ending, left_waiting, manager_table, more};
ghost use Rattle.manager_node.specs.ManagerTable.{note_issue, note_read, note_write, with_issued};
ghost use Rattle.manager_node.specs.Placed.{placed};

use crate::answer::Answer;
use crate::answers::Answers;
use crate::beats::{put_data, put_request};
use crate::direction::Direction;
use crate::script::Script;
use crate::sending::Sending;
use axi_beats::{BBeat, NoMemory, RBeat};
use axi_link::{Link, Out};
use node_core::{EachRow, Paces, Step, link_at, passed, set_take};
use std::alloc::Global;
use std::marker::{Model, Send, Sync};

/// A manager at the upper end of a link.
#[derive(Drop)]
pub struct ManagerNode {
    script: Script,
    // The number of the link below it, and the bytes of that link's bus.
    lower: u32,
    bus: u8,
    // One for the row of each channel.
    paces: Paces,
    writes: Direction,
    reads: Direction,
    sending: Sending,
    // How many transactions are answered, so that no round has to count them.
    answered: u32,
    answers: Answers,
    out: Out,
}

impl Model for ManagerNode {
    ghost use Rattle.node_core.specs.Acted.{Acted};
    ghost use Rattle.manager_node.specs.ManagerState.{ManagerState};

    ghost Value = { Acted ManagerState };

    ghost use Rattle.manager_node.specs.ManagerInside.{manager_view, IsManagerInside};

    ghost view = { manager_view };

    ghost invariant = { IsManagerInside };
}

impl ManagerNode {
    /// A manager with nothing issued: its script, all of whose bursts are legal on its bus, the
    /// number of the link below it and the bytes of its bus (4, 8, 16, 32, 64 or 128). `accept` and
    /// `give` are lists of 1 to 64 delays, each of 0 to 63 rounds: the first one for B and R, which it
    /// takes, and the second one for AW, W and AR, which it puts. All memory for the answers is taken
    /// here; `NoMemory` where there isn't enough.
    pub fn new(
        alloc: Global,
        script: Script,
        lower: u32,
        bus: u8,
        accept: &[u8],
        give: &[u8],
    ) -> Result<ManagerNode, NoMemory>
        requires bus { IsBusWidth bus }
        requires legal { All (λ item. IsLegal item.txn.request bus) script }
        requires some_accept { 0 < length accept.now }
        requires most_accept { length accept.now ≤ 64 }
        requires short_accept { All (λ delay. delay < 64) accept.now }
        requires some_give { 0 < length give.now }
        requires most_give { length give.now ≤ 64 }
        requires short_give { All (λ delay. delay < 64) give.now }
        ensures { IfOk result (λ manager.
            manager ≡ opened (new_manager script lower bus (new_paces give.now accept.now))) }
    {
        let writes = Direction::new(alloc, &script, true)?;
        let reads = Direction::new(alloc, &script, false)?;
        let answers = Answers::new(alloc, &script)?;
        let paces = Paces::new(give, accept);
        Ok(ManagerNode {
            script,
            lower,
            bus,
            paces,
            writes,
            reads,
            sending: Sending {
                writes: 0,
                beats: 0,
                bytes: 0,
            },
            answered: 0,
            answers,
            out: Out::default(),
        })
    }

    /// The script, with its transactions.
    pub fn script(&self) -> &Script
        ensures { result.now ≡ self.now.state.script }
    {
        &self.script
    }

    /// The answer to the transaction at place `n` of the script, counted from 0; None exactly where
    /// it isn't answered.
    pub fn answer(&self, n: u32) -> Option<&Answer>
        requires { n < length self.now.state.script }
        ensures { option_copied result ≡ answer_of self.now.state n }
    {
        let answer = self.answers.get(n as usize);
        if answer.answered() > 0 {
            Some(answer)
        } else {
            None
        }
    }

    /// Whether all transactions are answered.
    pub fn done(&self) -> bool
        ensures { result ≡ is_done self.now.state }
    {
        self.answered == self.script.len()
    }

    /// Whether its link is among these, in a round from 1 on.
    pub fn can_decide(&self, round: u64, links: &[Link]) -> bool
        ensures { IsTrue result → CanManager round links.now self.now.state }
    {
        round > 0 && (self.lower as usize) < links.len()
    }

    /// What could be done in this round, on this link below it.
    fn possible(&self, link: &Link) -> Possible
        ensures { IsPossible link.now self.now.state result }
    {
        let (script, answered) = (&self.script, self.answered);
        Possible {
            write: self.writes.next(script, answered, link.room_aw()),
            data_beat: self.writes.next_data(self.sending.writes, link.room_w()),
            response: has_response(&self.writes, link.head_b()),
            read: self.reads.next(script, answered, link.room_ar()),
            read_beat: has_read_beat(&self.reads, link.head_r()),
        }
    }

    /// Does each row of the table.
    fn act(&mut self, round: u64, links: &[Link])
        requires { CanManager round links.now self.old.state }
        ensures table { self.new ≡ manager_table round links.now self.old.state }
        ensures fact { IsManager self.new.state }
    {
        let link = link_at(links, self.lower);
        let possible = self.possible(link);
        let rows = self.paces.ask(&possible.wishes());
        let write = chosen(rows.aw, possible.write);
        let data = chosen(rows.w, possible.data_beat);
        let read = chosen(rows.ar, possible.read);
        put_request(&mut self.out.aw_put, self.lower, &self.script, write);
        put_data(
            &mut self.out.w_put,
            self.lower,
            &self.script,
            data,
            self.bus,
            &self.sending,
        );
        put_request(&mut self.out.ar_put, self.lower, &self.script, read);

        let written = take_response(
            &mut self.writes,
            &mut self.answers,
            &self.script,
            round,
            passed(rows.b, link.head_b()),
        );
        let got = take_data(
            &mut self.reads,
            &mut self.answers,
            &self.script,
            round,
            self.bus,
            passed(rows.r, link.head_r()),
        );
        set_take(&mut self.out.b_take, self.lower, written);
        set_take(&mut self.out.r_take, self.lower, got.is_some());
        self.answered += u32::from(written) + u32::from(got.unwrap_or(false));
        self.sending.step(&self.script, data);
        issue(
            &mut self.writes,
            &mut self.answers,
            &self.script,
            round,
            write,
        );
        issue(
            &mut self.reads,
            &mut self.answers,
            &self.script,
            round,
            read,
        );
    }
}

impl Step for ManagerNode {
    ghost can = { λ round links node. CanManager round links node.state };

    ghost table = { λ round links node. manager_table round links node.state };

    ghost moves = { λ node. node.out };

    ghost fact = { λ node. IsManager node.state };

    #[tactic(auto, using(crate::proofs::StateLemmas::manager_fits))]
    fn decide(&mut self, round: u64, links: &[Link]) {
        self.act(round, links);
    }

    fn out(&self) -> &Out {
        &self.out
    }
}

/// What a manager could do in a round: the places of the transactions whose request or next data beat
/// it could put, and whether it could take a response and a beat of read data.
#[derive(Clone, Copy)]
pub(crate) struct Possible {
    write: Option<u32>,
    data_beat: Option<u32>,
    response: bool,
    read: Option<u32>,
    read_beat: bool,
}

impl Possible {
    /// The rows whose condition holds.
    fn wishes(&self) -> EachRow
        ensures { result ≡ wishes_of self.now }
    {
        EachRow {
            aw: self.write.is_some(),
            w: self.data_beat.is_some(),
            b: self.response,
            ar: self.read.is_some(),
            r: self.read_beat,
        }
    }
}

/// The transaction at a place, where its row is done.
fn chosen(done: bool, place: Option<u32>) -> Option<u32>
    ensures { result ≡ beat_where done place }
{
    if done { place } else { None }
}

/// Whether a response answers a write.
fn has_response(writes: &Direction, head: Option<&BBeat>) -> bool
    ensures { result ≡ is_some
        (answering (λ beat. beat.id) writes.now.entries (option_copied head.entry)) }
{
    match head {
        Some(beat) => writes.oldest(beat.id).is_some(),
        None => false,
    }
}

/// Whether a beat of read data answers a read.
fn has_read_beat(reads: &Direction, head: Option<&RBeat>) -> bool
    ensures { result ≡ is_some
        (answering (λ beat. beat.id) reads.now.entries (option_copied head.entry)) }
{
    match head {
        Some(beat) => reads.oldest(beat.id).is_some(),
        None => false,
    }
}

/// Takes a response that answers a write, and notes it; whether one was taken.
fn take_response(
    writes: &mut Direction,
    answers: &mut Answers,
    script: &Script,
    round: u64,
    head: Option<&BBeat>,
) -> bool
    requires within { All (λ entry. entry.place < length answers.old) writes.old.entries }
    requires due { All (λ entry. IsDue script.now true entry.place
        (slice_index_or answers.old entry.place (unanswered 0))) writes.old.entries }
    ensures taken { result ≡ is_some
        (answering (λ beat. beat.id) writes.old.entries (option_copied head.entry)) }
    ensures writes { writes.new ≡ record writes.old {
      entries = left_waiting
          (answering (λ beat. beat.id) writes.old.entries (option_copied head.entry))
          writes.old.entries;
    } }
    ensures answers { answers.new ≡ note_write round
        (answering (λ beat. beat.id) writes.old.entries (option_copied head.entry))
        answers.old }
{
    let Some(beat) = head else {
        return false;
    };
    let Some(place) = writes.close(beat.id) else {
        return false;
    };
    answers.note_write(script, place, round, beat.resp);
    true
}

/// Takes a data beat that answers a read, and notes it; the read leaves with its last one. Tells
/// whether it was the last one, and None where no beat was taken.
fn take_data(
    reads: &mut Direction,
    answers: &mut Answers,
    script: &Script,
    round: u64,
    bus: u8,
    head: Option<&RBeat>,
) -> Option<bool>
    requires within { All (λ entry. entry.place < length answers.old) reads.old.entries }
    requires due { All (λ entry. IsDue script.now false entry.place
        (slice_index_or answers.old entry.place (unanswered 0))) reads.old.entries }
    requires bus { IsBusWidth bus }
    requires legal { All (λ item. IsLegal item.txn.request bus) script.now }
    ensures taken { result ≡ option_map
        (λ answer. is_last (slice_index_or answers.old answer.0.place (unanswered 0)))
        (answering (λ beat. beat.id) reads.old.entries (option_copied head.entry)) }
    ensures reads { reads.new ≡ record reads.old {
      entries = left_waiting (ending answers.old
          (answering (λ beat. beat.id) reads.old.entries (option_copied head.entry)))
          reads.old.entries;
    } }
    ensures answers { answers.new ≡ note_read round bus script.now
        (answering (λ beat. beat.id) reads.old.entries (option_copied head.entry))
        answers.old }
{
    let Some(beat) = head else {
        return None;
    };
    let Some(place) = reads.oldest(beat.id) else {
        return None;
    };
    let last = answers.note_read(script, place, round, bus, beat);
    if last {
        reads.close(beat.id);
    }
    Some(last)
}

/// Files the next transaction as issued, and notes the round; nothing where there is none.
fn issue(
    direction: &mut Direction,
    answers: &mut Answers,
    script: &Script,
    round: u64,
    next: Option<u32>,
)
    requires within { IfSome next (λ place. place < length script.now) }
    requires noted { IfSome next (λ place. place < length answers.old) }
    requires room { IsSome next → length direction.old.entries < 16 }
    requires left { IsSome next → direction.old.issued < vec_len direction.old.places }
    ensures direction { direction.new ≡ record direction.old {
      issued = direction.old.issued + more (is_some (placed script.now next));
      entries = with_issued (placed script.now next) direction.old.entries;
    } }
    ensures answers { answers.new ≡ note_issue round (placed script.now next) answers.old }
{
    if let Some(place) = next {
        direction.issue(script, place);
        answers.note_issue(place, round);
    }
}

fn crosses<T: Send + Sync>(_value: &T) {}

/// A manager may be sent to another thread, and lent to one.
pub fn crosses_threads(manager: &ManagerNode) {
    crosses(manager);
}
