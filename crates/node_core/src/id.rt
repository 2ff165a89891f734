//! The beats that have an ID, as one trait.

ghost use Rattle.std.specs.Prelude.{◌≡◌, ℕ};

use crate::beat::Beat;
use axi_beats::{Addr, BBeat, RBeat};

/// A beat with an ID (Arm IHI 0022, transaction identifiers): all but write data.
pub trait HasId: Beat {
    ghost id_of: { Self → ℕ };

    ghost with_id: { ℕ → Self → Self };

    /// Its ID.
    fn id(&self) -> u32
        ensures { result ≡ id_of self.now };

    /// Becomes the same under another ID.
    fn set_id(&mut self, id: u32)
        ensures { self.new ≡ with_id id self.old };
}

impl HasId for Addr {
    ghost id_of = { λ a. a.id };

    ghost with_id = { λ id a. record a { id = id } };

    fn id(&self) -> u32 {
        self.id
    }

    fn set_id(&mut self, id: u32) {
        self.id = id;
    }
}

impl HasId for BBeat {
    ghost id_of = { λ b. b.id };

    ghost with_id = { λ id b. record b { id = id } };

    fn id(&self) -> u32 {
        self.id
    }

    fn set_id(&mut self, id: u32) {
        self.id = id;
    }
}

impl HasId for RBeat {
    ghost id_of = { λ r. r.id };

    ghost with_id = { λ id r. record r { id = id } };

    fn id(&self) -> u32 {
        self.id
    }

    fn set_id(&mut self, id: u32) {
        self.id = id;
    }
}
