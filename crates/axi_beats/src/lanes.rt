//! The data lanes of a beat, which a contract sees as the list of their 128 bytes.

ghost use Rattle.std.specs.Prelude.{◌≡◌, ◌<◌, length, slice_index, slice_set, replicate};

use std::alloc::AllocError;
use std::marker::Model;

/// 128 data lanes of one byte each, the widest bus there is. Lane n is data bits 8n to 8n + 7;
/// a narrower bus uses the lower lanes. (Arm IHI 0022, data read and write structure.)
pub struct Lanes {
    bytes: [u8; 128],
}

impl Model for Lanes {
    ghost use Rattle.std.specs.Prelude.{ℕ, List};

    ghost Value = { List ℕ };

    ghost view = { λ l. l.bytes };

    ghost inverse = { λ bytes. record { bytes = bytes } };
}

impl Clone for Lanes {
    ghost is_clone = { λ x y. y ≡ x };

    fn clone(&self) -> Result<Lanes, AllocError> {
        Ok(*self)
    }
}

impl Copy for Lanes {}

impl Default for Lanes {
    ghost is_default = { λ l. l ≡ replicate 128 0 };

    fn default() -> Lanes {
        Lanes::zero()
    }
}

impl Lanes {
    /// 128 lanes of 0.
    pub fn zero() -> Lanes
        ensures { result ≡ replicate 128 0 }
    {
        Lanes { bytes: [0; 128] }
    }

    /// The byte on lane `n`, which is below 128.
    pub fn get(&self, n: u8) -> u8
        requires { n < 128 }
        ensures byte { result ≡ slice_index self.now n }
        ensures lanes { length self.now ≡ 128 }
    {
        let lane = usize::from(n);
        self.bytes[lane]
    }

    /// Puts the byte `b` on lane `n`, which is below 128; the other lanes stay.
    pub fn set(&mut self, n: u8, b: u8)
        requires { n < 128 }
        ensures byte { self.new ≡ slice_set self.old n b }
        ensures lanes { length self.old ≡ 128 }
    {
        self.bytes[usize::from(n)] = b;
    }

    /// Takes over all lanes of `from`.
    pub fn assign(&mut self, from: &Lanes)
        ensures { self.new ≡ from.now }
    {
        *self = *from;
    }
}
