//! The paces of an endpoint, one for the row of each channel.

ghost use Rattle.std.specs.Prelude.{◌≡◌, ◌<◌, ◌≤◌, All, length};
ghost use Rattle.node_core.specs.Paces.{new_paces, paces_after, rows_let};

use crate::pace::Pace;

/// A fact of each channel's row: that its condition holds, or that it is done.
#[derive(Clone, Copy, Default)]
pub struct EachRow {
    pub aw: bool,
    pub w: bool,
    pub b: bool,
    pub ar: bool,
    pub r: bool,
}

/// One pace a channel.
#[derive(Drop)]
pub struct Paces {
    pub aw: Pace,
    pub w: Pace,
    pub b: Pace,
    pub ar: Pace,
    pub r: Pace,
}

impl Paces {
    /// The paces over two lists of 1 to 64 delays, each of 0 to 63 rounds: `down` for AW, W and AR, and
    /// `up` for B and R.
    pub fn new(down: &[u8], up: &[u8]) -> Paces
        requires some_down { 0 < length down.now }
        requires most_down { length down.now ≤ 64 }
        requires short_down { All (λ delay. delay < 64) down.now }
        requires some_up { 0 < length up.now }
        requires most_up { length up.now ≤ 64 }
        requires short_up { All (λ delay. delay < 64) up.now }
        ensures { result ≡ new_paces down.now up.now }
    {
        Paces {
            aw: Pace::new(down),
            w: Pace::new(down),
            b: Pace::new(up),
            ar: Pace::new(down),
            r: Pace::new(up),
        }
    }

    /// Asks each pace whether its row is done in this round, where `possible` tells whose condition
    /// holds, as [`Pace::ask`] does.
    pub fn ask(&mut self, possible: &EachRow) -> EachRow
        ensures rows { result ≡ rows_let possible.now self.old }
        ensures paces { self.new ≡ paces_after possible.now self.old }
    {
        EachRow {
            aw: self.aw.ask(possible.aw),
            w: self.w.ask(possible.w),
            b: self.b.ask(possible.b),
            ar: self.ar.ask(possible.ar),
            r: self.r.ask(possible.r),
        }
    }
}
