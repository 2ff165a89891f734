//! The beats of the five channels, as one trait.

ghost use Rattle.std.specs.Prelude.{◌≡◌};

use axi_beats::{Addr, BBeat, RBeat, WBeat};

/// A beat of some channel. It is written in place: a beat holds up to 128 lanes, and a value that is
/// built and then moved is copied several times.
pub trait Beat: Copy + Default {
    /// Becomes the same as `from`, field by field.
    fn assign(&mut self, from: &Self)
        ensures { self.new ≡ from.now };
}

impl Beat for Addr {
    fn assign(&mut self, from: &Addr) {
        *self = *from;
    }
}

impl Beat for WBeat {
    fn assign(&mut self, from: &WBeat) {
        self.strobe = from.strobe;
        self.last = from.last;
        self.tag = from.tag;
        self.lanes.assign(&from.lanes);
    }
}

impl Beat for BBeat {
    fn assign(&mut self, from: &BBeat) {
        *self = *from;
    }
}

impl Beat for RBeat {
    fn assign(&mut self, from: &RBeat) {
        self.id = from.id;
        self.resp = from.resp;
        self.last = from.last;
        self.tag = from.tag;
        self.lanes.assign(&from.lanes);
    }
}
