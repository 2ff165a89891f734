//! Where output goes.

ghost use Rattle.std.specs.Prelude.{ℕ, ◌<◌, ◌≤◌, List, Option, length, IfOk};
ghost use Rattle.std.specs.Io.KnownBytes.{WriteAppends};
ghost use Rattle.axi_program.specs.Faults.{HasCause};

use super::source::Failed;

/// What takes the bytes of a text.
///
/// A clause sees it as `written`, the bytes that it took so far, where the sink tells them, and `faults`, the number
/// of its failures, which stands still at the largest `u64`.
pub trait Sink {
    ghost written: { Self → Option (List ℕ) };

    ghost faults: { Self → ℕ };

    /// Takes at least one byte from the front of `piece`, which isn't empty, and answers how many.
    fn write(&mut self, piece: &[u8]) -> Result<usize, Failed>
        requires { 0 < length piece.now }
        ensures some { IfOk result (λ n. 0 < n) }
        ensures bound { IfOk result (λ n. n ≤ length piece.now) }
        ensures bytes { WriteAppends (written self.old) (written self.new) result piece.now }

        // The count of faults never falls, and a call fails only where it rose.
        ensures cause { HasCause (faults self.old) (faults self.new) result };
}
