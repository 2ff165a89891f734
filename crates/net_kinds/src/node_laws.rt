//! What holds of nodes, whatever their kind.

ghost use Rattle.net_kinds.specs.NodeCuts.{FewResponsesEnd, FewResponsesMerge, SomePartGoesOn, StatusesMerge};
ghost use Rattle.net_kinds.specs.NodeKind.{node_kind};
ghost use Rattle.net_kinds.specs.NodeTable.{NodesDoAsTheirKind};
ghost use Rattle.node_shape.specs.KindHolds.{KindHolds};

/// All kinds together show what every kind has to show, and a node does what its kind's table says.
pub fn laws()
    ensures holds { KindHolds node_kind }
    ensures same { NodesDoAsTheirKind }
{}

/// What nodes make of transactions that they cut, and of the responses that come back: some part goes on,
/// no more responses come up than there are parts of a write and beats of a read, and each is the worst
/// status of its bytes where it is so below.
pub fn laws_of_responses()
    ensures some { SomePartGoesOn }
    ensures few_end { FewResponsesEnd }
    ensures few_merge { FewResponsesMerge }
    ensures statuses { StatusesMerge }
{}
