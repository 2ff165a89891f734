//! `Flight`, seen in clauses as the list of its entries in order of issue.
ghost use Rattle.std.specs.Prelude.{ℕ, ◌≡◌, ◌<◌, ◌≤◌, ◌==◌, [], ◌∷◌, ◌++◌, length, map, remove, slice_get, slice_set, IfSome, Some};
ghost use Rattle.flight.specs.Entries.{place_of};

use arrayvec::ArrayVec;
use std::marker::{Model, Send, Sync};

/// An entry that is filed under a key.
pub trait Filed: Copy + Default {
    ghost key_of: { Self → ℕ };

    /// The key, for example the ID of the request that waits.
    fn key(&self) -> u32
        ensures { result ≡ key_of self.now };
}

/// At most 16 entries in order of issue, so that the first one is the oldest. They stand in the value
/// itself, so no call takes memory.
#[derive(Drop)]
pub struct Flight<T: Filed> {
    entries: ArrayVec<T, 16>,
}

impl<T: Filed> Model for Flight<T> {
    ghost use Rattle.std.specs.Prelude.{◌≤◌, List, length};

    ghost Value = { List T };

    ghost view = { λ f. f.entries.items };

    ghost invariant = { λ f. length f.entries.items ≤ 16 };
}

impl<T: Filed> Flight<T> {
    /// No entries.
    pub fn new() -> Flight<T>
        ensures { result ≡ [] }
    {
        Flight {
            entries: ArrayVec::new(),
        }
    }

    /// The number of entries, at most 16.
    pub fn len(&self) -> usize
        ensures value { result ≡ length self.now }
        ensures bound { length self.now ≤ 16 }
    {
        self.entries.len()
    }

    /// Whether there is no entry.
    pub fn is_empty(&self) -> bool
        ensures { result ≡ (length self.now == 0) }
    {
        self.entries.is_empty()
    }

    /// Whether there is no room for another entry, which is exactly at 16.
    pub fn full(&self) -> bool
        ensures value { result ≡ (length self.now == 16) }
        ensures bound { length self.now ≤ 16 }
    {
        self.entries.is_full()
    }

    /// The entry at `place`, counted from 0 at the oldest and below the number of entries.
    pub fn get(&self, place: usize) -> &T
        requires { place < length self.now }
        ensures { slice_get self.now place ≡ Some result.now }
    {
        &self.entries.as_slice()[place]
    }

    /// Writes `entry` over the one at `place`, which has the same key.
    pub fn set(&mut self, place: usize, entry: T)
        requires place { place < length self.old }
        requires key { slice_get (map T.key_of self.old) place ≡ Some (T.key_of entry) }
        ensures entry { self.new ≡ slice_set self.old place entry }
        ensures keys { map T.key_of self.new ≡ map T.key_of self.old }
    {
        self.entries.as_mut_slice()[place] = entry;
    }

    /// Adds `entry` as the newest. There is room: fewer than 16 entries wait.
    pub fn push(&mut self, entry: T)
        requires { length self.old < 16 }
        ensures { self.new ≡ self.old ++ entry ∷ [] }
    {
        self.entries.push(entry);
    }

    /// The place of the oldest entry with this key, or `None` where no entry has it.
    pub fn oldest(&self, key: u32) -> Option<usize>
        ensures oldest { result ≡ place_of key (map T.key_of self.now) }
        ensures within { IfSome result (λ place. place < length self.now) }
        ensures found { IfSome result (λ place. slice_get (map T.key_of self.now) place ≡ Some key) }
    {
        for (place, entry) in self.entries.as_slice().iter().enumerate() {
            if entry.key() == key {
                return Some(place);
            }
        }
        None
    }

    /// Takes the entry at `place` out. The newer ones move up by one place.
    pub fn take(&mut self, place: usize) -> T
        requires { place < length self.old }
        ensures entry { slice_get self.old place ≡ Some result }
        ensures rest { self.new ≡ remove self.old place }
    {
        self.entries.remove(place)
    }
}

// A call of this is refused where the type may not go to another thread.
fn crosses<T: Send + Sync>(_value: &T) {}

/// A list of entries may be sent to another thread and lent to one.
pub fn crosses_threads<T: Filed + Send + Sync>(flight: &Flight<T>) {
    crosses(flight);
}
