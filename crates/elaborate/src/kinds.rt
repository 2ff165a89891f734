//! Documents with nodes of kinds that no network runs yet.

ghost use Rattle.std.specs.Prelude.{◌≡◌};
ghost use Rattle.elaborate.specs.Unbuilt.{is_unbuilt, unbuilt_at};

use topology::{Kind, Wiring};

/// The first node of a kind that no network runs yet, by its number from 0.
pub fn unbuilt(wiring: &Wiring) -> Option<u32>
    ensures { result ≡ unbuilt_at wiring.now }
{
    for node in 0..wiring.count() {
        if is_unbuilt(wiring.kind(node)) {
            return Some(node);
        }
    }
    None
}

// Whether no network runs nodes of this kind yet.
fn is_unbuilt(kind: Kind) -> bool
    ensures { result ≡ is_unbuilt kind }
{
    match kind {
        Kind::Down => true,
        _ => false,
    }
}
