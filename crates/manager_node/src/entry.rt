//! What a manager keeps of a transaction that waits for its answer.

use flight::Filed;

/// A transaction that is issued and not answered, filed under its ID.
#[derive(Clone, Copy, Debug, PartialEq, Eq, Default)]
pub struct Entry {
    /// Its place in the script, from 0.
    pub place: u32,
    /// The ID of its request, by which its answer finds it.
    pub id: u32,
}

impl Filed for Entry {
    ghost key_of = { λ entry. entry.id };

    fn key(&self) -> u32 {
        self.id
    }
}
