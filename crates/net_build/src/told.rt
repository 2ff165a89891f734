//! What a node tells, by its kind.

ghost use Rattle.std.specs.Prelude.{◌≡◌};
ghost use Rattle.std.specs.Option.{option_copied};
ghost use Rattle.net_build.specs.Noted.{HasPlace, answer_by, byte_by};
ghost use Rattle.net_kinds.specs.NodeKind.{node_view};

use manager_node::Answer;
use net_kinds::Node;

/// The answer to the transaction at a place of a node's script; None where it isn't answered, or where the
/// node is no manager.
pub(crate) fn answer_of(node: &Node, place: u32) -> Option<&Answer>
    requires { HasPlace (node_view node.now).state.kind (node_view node.now).state.state place }
    ensures { option_copied result ≡ answer_by (node_view node.now).state.kind (node_view node.now).state.state place }
{
    match node {
        Node::Manager(manager) => manager.answer(place),
        _ => None,
    }
}

/// The byte of an address; None where the node is no memory, or where the address is outside it.
pub(crate) fn byte_of(node: &Node, address: u64) -> Option<u8>
    ensures { result ≡ byte_by (node_view node.now).state.kind (node_view node.now).state.state address }
{
    match node {
        Node::Memory(memory) => memory.byte(address),
        Node::LiteMemory(memory) => memory.byte(address),
        _ => None,
    }
}
