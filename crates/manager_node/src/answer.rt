//! `Answer`, seen in clauses as what came for a transaction, and what is due. (Arm IHI 0022, read and
//! write response structure.)

ghost use Rattle.std.specs.Prelude.{◌≡◌, ◌<◌, ◌≤◌, ◌^◌, ◌+◌, ◌-◌, ◌++◌, [], drop, length, take};
ghost use Rattle.std.specs.Prelude.{slice_get, Some, IfOk};
ghost use Rattle.axi_beats.specs.Bus.{IsBusWidth};
ghost use Rattle.burst_address.specs.Bytes.{burst_bytes, bytes_before};
ghost use Rattle.burst_address.specs.Legal.{IsLegal};
ghost use Rattle.manager_node.specs.Answer.{answered_in, awaited_of, is_last, issued_in};
ghost use Rattle.manager_node.specs.Beats.{bytes_on_valid_lanes};

use axi_beats::{Addr, Lanes, NoMemory, RBeat, Resp};
use burst_address::lanes;
use std::alloc::Global;
use std::marker::Model;

/// What a manager notes of one transaction: the rounds of its issue and of its answer, the
/// responses and, of a read, the bytes.
#[derive(Drop)]
pub struct Answer {
    issued: u64,
    answered: u64,
    // As long as what is due, so that no memory is taken later: the first `came` are there.
    resps: Vec<Resp>,
    came: usize,
    // In the same way the first `read` are there.
    bytes: Vec<u8>,
    read: usize,
}

impl Model for Answer {
    ghost use Rattle.manager_node.specs.Answer.{AnswerView};

    ghost Value = { AnswerView };

    ghost use Rattle.manager_node.specs.AnswerInside.{answer_view, IsAnswer};

    ghost view = { answer_view };

    ghost invariant = { IsAnswer };
}

impl Answer {
    /// Room for `resps` responses and `bytes` bytes, none of which came yet.
    pub(crate) fn new(alloc: Global, resps: usize, bytes: usize) -> Result<Answer, NoMemory>
        requires { resps ≤ 256 }
        ensures { IfOk result (λ answer. answer ≡ awaited_of resps bytes) }
    {
        Ok(Answer {
            issued: 0,
            answered: 0,
            resps: vec![in alloc; Resp::Okay; resps]?,
            came: 0,
            bytes: vec![in alloc; 0; bytes]?,
            read: 0,
        })
    }

    /// The round in which the request was put, counted from 1; 0 where it isn't put yet.
    pub fn issued(&self) -> u64
        ensures { result ≡ self.now.issued }
    {
        self.issued
    }

    /// The round in which the last beat of the answer was taken, counted from 1; 0 where it isn't
    /// taken yet.
    pub fn answered(&self) -> u64
        ensures { result ≡ self.now.answered }
    {
        self.answered
    }

    /// The number of responses that came: of a whole answer one for a write, and one for each beat of
    /// a read.
    pub fn beats(&self) -> u32
        ensures { result ≡ length self.now.resps }
    {
        self.came as u32
    }

    /// The response of beat `n`, counted from 0, which is below the number of responses.
    pub fn resp(&self, n: u32) -> Resp
        requires { n < length self.now.resps }
        ensures { slice_get self.now.resps n ≡ Some result }
    {
        self.resps[n as usize]
    }

    /// The bytes that were read so far: those of the valid lanes of each beat, beat by beat and lowest
    /// lane first; empty for a write.
    pub fn bytes(&self) -> &[u8]
        ensures { result.now ≡ self.now.bytes }
    {
        &self.bytes[..self.read]
    }

    /// Notes the round of the issue.
    pub(crate) fn note_issue(&mut self, round: u64)
        ensures { self.new ≡ issued_in round self.old }
    {
        self.issued = round;
    }

    /// Notes a response, of which another one is due; with the last one the round. Tells whether it
    /// is the last one.
    pub(crate) fn note_response(&mut self, round: u64, resp: Resp) -> bool
        requires { length self.old.resps < self.old.due_resps }
        ensures note { self.new ≡ answered_in round resp [] self.old }
        ensures last { result ≡ is_last self.old }
    {
        self.resps[self.came] = resp;
        self.came += 1;
        let last = self.came == self.resps.len();
        if last {
            self.answered = round;
        }
        last
    }

    /// Notes the next beat of a read with this request, of which another one is due: its response
    /// and the bytes of its valid lanes. Tells whether it is the last one.
    pub(crate) fn note_data(&mut self, round: u64, request: &Addr, bus: u8, beat: &RBeat) -> bool
        requires more { length self.old.resps < self.old.due_resps }
        requires resps { self.old.due_resps ≡ request.now.len + 1 }
        requires came { length self.old.bytes
            ≤ length (bytes_before request.now (length self.old.resps)) }
        requires bytes { self.old.due_bytes ≡ length (burst_bytes request.now) }
        requires start { request.now.addr < 2 ^ 63 }
        requires bus { IsBusWidth bus }
        requires legal { IsLegal request.now bus }
        ensures note { self.new ≡ answered_in round beat.now.resp
            (bytes_on_valid_lanes bus request.now (length self.old.resps) beat.now.lanes) self.old }
        ensures last { result ≡ is_last self.old }
    {
        let (low, high) = lanes(request, self.came as u32, bus);
        let end = self.read + usize::from(high - low) + 1;
        put_lanes(&mut self.bytes, self.read, end, low, &beat.lanes);
        self.read = end;
        self.note_response(round, beat.resp)
    }
}

/// Writes the lanes from `low` upwards over the bytes from place `start` to before place `end`.
fn put_lanes(bytes: &mut [u8], start: usize, end: usize, low: u8, lanes: &Lanes)
    requires order { start ≤ end }
    requires within { end ≤ length bytes.old }
    requires lanes { low + (end - start) ≤ 128 }
    ensures put { take end bytes.new
        ≡ take start bytes.old ++ take (end - start) (drop low lanes.now) }
    ensures length { length bytes.new ≡ length bytes.old }
{
    copy_lanes(&mut bytes[start..end], low, lanes);
}

/// Writes the lanes from `low` upwards over the bytes.
fn copy_lanes(bytes: &mut [u8], low: u8, lanes: &Lanes)
    requires { low + length bytes.old ≤ 128 }
    ensures { bytes.new ≡ take (length bytes.old) (drop low lanes.now) }
{
    for (n, byte) in bytes.iter_mut().enumerate() {
        *byte = lanes.get(low + n as u8);
    }
}
