//! Where input comes from.

ghost use Rattle.std.specs.Prelude.{ℕ, List, Option};
ghost use Rattle.std.specs.Io.{ReadsAtMost};
ghost use Rattle.std.specs.Io.KnownBytes.{ReadConsumes};
ghost use Rattle.axi_program.specs.Faults.{HasCause};

/// One read or write that failed.
#[derive(Debug, Clone, Copy, PartialEq, Eq)]
pub struct Failed;

/// A stream of bytes that ends.
///
/// A clause sees it as `left`, the bytes still to come, where the source tells them, and `faults`, the number of
/// its failures, which stands still at the largest `u64`.
pub trait Source {
    ghost left: { Self → Option (List ℕ) };

    ghost faults: { Self → ℕ };

    /// Moves the next bytes to the front of `buf` and answers how many. 0 into a buffer that isn't empty is the end
    /// of the input.
    fn read(&mut self, buf: &mut [u8]) -> Result<usize, Failed>
        ensures bound { ReadsAtMost result buf.new }
        ensures bytes { ReadConsumes (left self.old) (left self.new) result buf.new }

        // The count of faults never falls, and a call fails only where it rose.
        ensures cause { HasCause (faults self.old) (faults self.new) result };
}
