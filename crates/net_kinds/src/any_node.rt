//! Nodes of all kinds as the one kind of which networks are made.

ghost use Rattle.memory_node.specs.Events.{Access};
ghost use Rattle.net_kinds.specs.NodeKind.{NodeState, node_kind};

use crate::node::Node;
use net_model::AnyKind;

impl AnyKind for Node {
    ghost use Rattle.net_kinds.specs.NodeHolds.{node_holds};

    ghost state = { NodeState };

    ghost noted = { Access };

    ghost kind = { node_kind };

    ghost holds = { node_holds };
}
