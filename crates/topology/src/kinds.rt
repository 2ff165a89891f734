//! Kinds of nodes, as the causes of refusals tell them apart.

ghost use Rattle.std.specs.Prelude.{◌≡◌, ◌<◌, length};
ghost use Rattle.topology.specs.Document.{has_regions, is_manager, is_memory, joins_links, node_at};

use topology_text::{Kind, Node};

/// The node of this number.
pub(crate) fn node_at(nodes: &[Node], place: u32) -> &Node
    requires { place < length nodes.now }
    ensures { result.now ≡ node_at nodes.now place }
{
    &nodes[place as usize]
}

/// Whether nodes of a kind issue transactions.
pub(crate) fn is_manager(kind: Kind) -> bool
    ensures { result ≡ is_manager kind }
{
    matches!(kind, Kind::Manager)
}

/// Whether nodes of a kind answer transactions.
pub(crate) fn is_memory(kind: Kind) -> bool
    ensures { result ≡ is_memory kind }
{
    matches!(kind, Kind::Memory | Kind::LiteMemory)
}

/// Whether nodes of a kind name the nodes below by regions.
pub(crate) fn has_regions(kind: Kind) -> bool
    ensures { result ≡ has_regions kind }
{
    matches!(kind, Kind::Demux | Kind::Crossbar)
}

/// Whether nodes of a kind join several links from above.
pub(crate) fn joins_links(kind: Kind) -> bool
    ensures { result ≡ joins_links kind }
{
    matches!(kind, Kind::Mux | Kind::Crossbar)
}
