//! The IDs of a request that a remapper has sent on and that isn't answered.

use flight::Filed;

/// A request's ID on the link above, and the one that stands for it on the link below. It is found by
/// the latter, under which its answers come.
#[derive(Clone, Copy, Default)]
pub struct IdPair {
    /// The ID above.
    pub input: u32,
    /// The ID below.
    pub output: u32,
}

impl Filed for IdPair {
    ghost key_of = { λ pair. pair.output };

    fn key(&self) -> u32 {
        self.output
    }
}
