//! `Answers`, seen in clauses as the list of what is noted of each transaction of a script.

ghost use Rattle.std.specs.Prelude.{◌≡◌, ◌<◌, ◌≤◌, ◌^◌, [], length, map, slice_get, slice_index_or};
ghost use Rattle.std.specs.Prelude.{All, Some, IfOk, false, true, if◌then◌else◌};
ghost use Rattle.axi_beats.specs.Bus.{IsBusWidth};
ghost use Rattle.burst_address.specs.Bytes.{burst_bytes};
ghost use Rattle.burst_address.specs.Legal.{IsLegal};
ghost use Rattle.manager_node.specs.Answer.{answered_in, awaited_of, is_last, issued_in, noted};
ghost use Rattle.manager_node.specs.Answer.{unanswered};
ghost use Rattle.manager_node.specs.ManagerState.{IsDue, due_bytes, due_resps};
ghost use Rattle.manager_node.specs.ManagerTable.{read_in};

use crate::answer::Answer;
use crate::script::{Script, Txn};
use axi_beats::{Addr, NoMemory, RBeat, Resp};
use burst_address::burst_count;
use std::alloc::Global;
use std::marker::Model;

/// An answer for each transaction of a script.
#[derive(Drop)]
pub(crate) struct Answers {
    items: Vec<Answer>,
}

impl Model for Answers {
    ghost use Rattle.std.specs.Prelude.{List};
    ghost use Rattle.manager_node.specs.Answer.{AnswerView};

    ghost Value = { List AnswerView };

    ghost view = { λ a. a.items.items };
}

impl Answers {
    /// Room for the answers to all transactions of a script.
    pub(crate) fn new(alloc: Global, script: &Script) -> Result<Answers, NoMemory>
        ensures { IfOk result (λ answers.
            answers ≡ map (λ item. awaited_of (due_resps item.txn) (due_bytes item.txn)) script.now) }
    {
        let mut items = Vec::new(alloc);
        for n in 0..script.len() {
            let txn = script.txn(n);
            let answer = Answer::new(
                alloc,
                due_resps(txn),
                due_bytes(txn.write, script.request(n)),
            )?;
            if items.push(answer).is_err() {
                return Err(NoMemory);
            }
        }
        Ok(Answers { items })
    }

    /// The answer to the transaction at `place` of the script, counted from 0.
    pub(crate) fn get(&self, place: usize) -> &Answer
        requires { place < length self.now }
        ensures { slice_get self.now place ≡ Some result.now }
    {
        &self.items[place]
    }

    /// Notes the round of the issue of the transaction at `place`.
    pub(crate) fn note_issue(&mut self, place: u32, round: u64)
        requires { place < length self.old }
        ensures { self.new ≡ noted place (issued_in round) self.old }
    {
        self.items[place as usize].note_issue(round);
    }

    /// Notes the response to a write of the script, which is due.
    pub(crate) fn note_write(&mut self, script: &Script, place: u32, round: u64, resp: Resp)
        requires within { place < length self.old }
        requires due { IsDue script.now true place
            (slice_index_or self.old place (unanswered 0)) }
        ensures { self.new ≡ noted place (answered_in round resp []) self.old }
    {
        self.items[place as usize].note_response(round, resp);
    }

    /// Notes the next beat of a read of the script, which is due. Tells whether it is its last one.
    pub(crate) fn note_read(
        &mut self,
        script: &Script,
        place: u32,
        round: u64,
        bus: u8,
        beat: &RBeat,
    ) -> bool
        requires within { place < length self.old }
        requires due { IsDue script.now false place
            (slice_index_or self.old place (unanswered 0)) }
        requires bus { IsBusWidth bus }
        requires legal { All (λ item. IsLegal item.txn.request bus) script.now }
        ensures note { self.new ≡ noted place
            (read_in round bus (slice_get script.now place) beat.now) self.old }
        ensures last { result ≡ is_last (slice_index_or self.old place (unanswered 0)) }
    {
        let request = script.request(place);
        self.items[place as usize].note_data(round, request, bus, beat)
    }
}

/// How many responses answer a transaction.
fn due_resps(txn: &Txn) -> usize
    ensures value { result ≡ due_resps txn.now }
    ensures most { result ≤ 256 }
{
    if txn.write {
        1
    } else {
        usize::from(txn.request.len) + 1
    }
}

/// How many bytes a transaction with this request reads; a write reads none.
fn due_bytes(write: bool, request: &Addr) -> usize
    requires start { request.now.addr < 2 ^ 63 }
    requires legal { IsLegal request.now 128 }
    ensures { result ≡ (if write then 0 else length (burst_bytes request.now)) }
{
    if write { 0 } else { burst_count(request) }
}
