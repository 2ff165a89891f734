//! The transactions of one direction, writes or reads: what is issued of them, and what waits.

ghost use Rattle.std.specs.Prelude.{◌≡◌, ◌==◌, ◌<◌, ◌+◌, ◌&&◌, ◌++◌, ◌∷◌, [], All, Some, find, length, map, nat_lt, slice_get, vec_len, if◌then◌else◌, IfOk, IfSome, IsSome, OnOk};
ghost use Rattle.std.specs.Option.{option_map};
ghost use Rattle.manager_node.specs.ManagerState.{is_directed, of_direction};
ghost use Rattle.manager_node.specs.ManagerTable.{ready, with_issued};
ghost use Rattle.manager_node.specs.Placed.{placed};
ghost use Rattle.plain_lists.specs.Keys.{without_oldest};
ghost use Rattle.node_core.specs.Rows.{beat_where, fits};

use crate::entry::Entry;
use crate::script::{Script, Txn};
use axi_beats::NoMemory;
use flight::Flight;
use std::alloc::Global;

/// The places of a direction's transactions in the script, how many of them are issued, and those
/// that wait for their answers.
#[derive(Drop)]
pub(crate) struct Direction {
    pub(crate) places: Vec<u32>,
    pub(crate) issued: usize,
    pub(crate) entries: Flight<Entry>,
}

impl Direction {
    /// The writes of a script, or its reads, none of which is issued.
    pub(crate) fn new(alloc: Global, script: &Script, write: bool) -> Result<Direction, NoMemory>
        ensures places { IfOk result (λ d.
            d.places.items ≡ map (λ p. p.0) (of_direction write script.now)) }
        ensures issued { IfOk result (λ d. d.issued ≡ 0) }
        ensures entries { IfOk result (λ d. d.entries ≡ []) }
    {
        let mut places = Vec::new(alloc);
        for n in 0..script.len() {
            push_where(&mut places, n, is_directed(script.txn(n), write))?;
        }
        Ok(Direction {
            places,
            issued: 0,
            entries: Flight::new(),
        })
    }

    /// The place of the next transaction, where as many are answered as it waits for, another one
    /// can wait for its answer, and there is room on the link; else None.
    pub(crate) fn next(&self, script: &Script, answered: u32, room: bool) -> Option<u32>
        requires { All (λ place. place < length script.now) self.now.places.items }
        ensures next { placed script.now result ≡ beat_where (fits self.now.entries && room)
            (ready answered (placed script.now (slice_get self.now.places.items self.now.issued))) }
        ensures within { IfSome result (λ place. place < length script.now) }
        ensures fit { IsSome result → length self.now.entries < 16 }
        ensures left { IsSome result → self.now.issued < vec_len self.now.places }
    {
        if self.entries.full() || !room {
            return None;
        }
        let place = *self.places.get(self.issued)?;
        if script.txn(place).after <= answered {
            Some(place)
        } else {
            None
        }
    }

    /// The place of the oldest write that is issued and whose data isn't all sent, where there is
    /// room on the link; else None. All data of the first `sent` writes is sent.
    pub(crate) fn next_data(&self, sent: usize, room: bool) -> Option<u32>
        ensures { result ≡ beat_where (nat_lt sent self.now.issued && room)
            (slice_get self.now.places.items sent) }
    {
        if sent < self.issued && room {
            self.places.get(sent).copied()
        } else {
            None
        }
    }

    /// Files the next transaction, which stands at `place`, as issued.
    pub(crate) fn issue(&mut self, script: &Script, place: u32)
        requires within { place < length script.now }
        requires room { length self.old.entries < 16 }
        requires more { self.old.issued < vec_len self.old.places }
        ensures places { self.new.places ≡ self.old.places }
        ensures issued { self.new.issued ≡ self.old.issued + 1 }
        ensures entries { self.new.entries ≡
            with_issued (placed script.now (Some place)) self.old.entries }
    {
        let id = script.txn(place).request.id;
        self.entries.push(Entry { place, id });
        self.issued += 1;
    }

    /// The place of the oldest transaction of an ID among those that wait; None exactly where none
    /// has the ID.
    pub(crate) fn oldest(&self, id: u32) -> Option<u32>
        ensures { result ≡ option_map (λ entry. entry.place)
            (find (λ entry. entry.id == id) self.now.entries) }
    {
        match self.entries.oldest(id) {
            Some(oldest) => Some(self.entries.get(oldest).place),
            None => None,
        }
    }

    /// Takes the oldest transaction of an ID out of those that wait, and tells its place; None
    /// exactly where none has the ID.
    pub(crate) fn close(&mut self, id: u32) -> Option<u32>
        ensures place { result ≡ option_map (λ entry. entry.place)
            (find (λ entry. entry.id == id) self.old.entries) }
        ensures places { self.new.places ≡ self.old.places }
        ensures issued { self.new.issued ≡ self.old.issued }
        ensures entries { self.new.entries ≡
            without_oldest (λ entry. entry.id) id self.old.entries }
    {
        match self.entries.oldest(id) {
            Some(oldest) => Some(self.entries.take(oldest).place),
            None => None,
        }
    }
}

/// Whether a transaction is a write, or is a read.
fn is_directed(txn: &Txn, write: bool) -> bool
    ensures { result ≡ is_directed write txn.now }
{
    txn.write == write
}

/// Adds a number where it is wanted.
fn push_where(numbers: &mut Vec<u32>, number: u32, wanted: bool) -> Result<(), NoMemory>
    ensures { OnOk result (numbers.new.items ≡
        numbers.old.items ++ (if wanted then number ∷ [] else [])) }
{
    if wanted && numbers.push(number).is_err() {
        return Err(NoMemory);
    }
    Ok(())
}
