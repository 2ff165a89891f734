//! `Pace`, seen in clauses as its delays, the place among them and the rounds waited.

ghost use Rattle.std.specs.Prelude.{◌≡◌, ◌<◌, ◌≤◌, All, length};
ghost use Rattle.node_core.specs.Pace.{PaceState, is_let, new_pace, pace_after};

use arrayvec::ArrayVec;
use std::marker::Model;

/// How long a row of an endpoint's table waits: the row is let through after so many rounds in which
/// it could have been done as the list of delays says, one delay after the other and then from the
/// first one again.
#[derive(Drop)]
pub struct Pace {
    delays: ArrayVec<u8, 64>,
    // The delay that holds now.
    place: u8,
    // In how many rounds the row could have been done since the last time that it was.
    waited: u8,
}

impl Model for Pace {
    ghost use Rattle.node_core.specs.Pace.{PaceState};

    ghost Value = { PaceState };

    ghost use Rattle.node_core.specs.PaceInside.{pace_view, IsPaceInside};

    ghost view = { pace_view };

    ghost invariant = { IsPaceInside };
}

impl Pace {
    /// The pace over a list of 1 to 64 delays, each of 0 to 63 rounds; the first one holds first.
    pub fn new(list: &[u8]) -> Pace
        requires some { 0 < length list.now }
        requires most { length list.now ≤ 64 }
        requires short { All (λ delay. delay < 64) list.now }
        ensures { result ≡ new_pace list.now }
    {
        let mut delays = ArrayVec::new();
        for delay in list {
            delays.push(*delay);
        }
        Pace {
            delays,
            place: 0,
            waited: 0,
        }
    }

    /// Whether the row is done in this round, where `possible` tells that its condition holds. Where it
    /// doesn't, the answer is no and nothing changes. Where it does and the delay isn't over, the round
    /// is waited; else the answer is yes, and the next delay holds from then on.
    pub fn ask(&mut self, possible: bool) -> bool
        ensures answer { result ≡ is_let possible self.old }
        ensures pace { self.new ≡ pace_after possible self.old }
    {
        if !possible {
            return false;
        }
        if self.waited < self.delays.as_slice()[usize::from(self.place)] {
            self.waited += 1;
            return false;
        }
        self.waited = 0;
        self.place += 1;
        if usize::from(self.place) == self.delays.len() {
            self.place = 0;
        }
        true
    }
}
