//! The managers that the lines of a traffic name.

ghost use Rattle.std.specs.Prelude.{◌≡◌, ◌<◌, IfSome, length};
ghost use Rattle.topology.specs.Document.{node_at};
ghost use Rattle.topology.specs.Wiring.{manager_named};
ghost use Rattle.plan_traffic.specs.Ports.{IsPort};

use plain_text::words::is_word;
use topology::{Kind, Wiring};

/// The manager of a name that lies in the text, by its number among the document's nodes.
pub(crate) fn manager_called(nodes: &Wiring, name: &[u8]) -> Option<u32>
    ensures number { result ≡ manager_named nodes.now name.now }
    ensures inside { IfSome result (λ number. number < length nodes.now) }
    ensures port { IfSome result (λ number. IsPort (node_at nodes.now number)) }
{
    for number in 0..nodes.count() {
        if nodes.kind(number) == Kind::Manager && is_word(nodes.name(number).as_bytes(), name) {
            return Some(number);
        }
    }
    None
}
