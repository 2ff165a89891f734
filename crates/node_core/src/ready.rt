//! Which ports of a node are ready, as the bits of a number: bit n is port n.

ghost use Rattle.std.specs.Prelude.{◌≡◌, ◌<◌, ◌==◌, ◌&&◌, ◌||◌, ℕ};
ghost use Rattle.std.specs.Int.{bit_at};

/// The ports that are ready, with this one among them where it is ready, too.
pub fn mark_ready(ready: u32, port: u8, is_ready: bool) -> u32
    requires { port < 32 }
    ensures { (other : ℕ) → (bit_at result other == 1) ≡ (bit_at ready other == 1 || (is_ready && (other == port))) }
{
    if is_ready { ready | 1 << port } else { ready }
}
