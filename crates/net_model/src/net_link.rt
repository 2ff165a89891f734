//! What a link of a network is.

/// A link of a network: the nodes at its ends, what is spoken on it, and how many beats wait on it at
/// most. It is seen in clauses as it is.
#[derive(Clone, Copy, Debug, PartialEq, Eq, Default)]
pub struct NetLink {
    /// The node on the manager's side, which puts AW, W and AR: its place among the network's nodes.
    pub upper: u32,
    /// The node on the subordinate's side, which puts B and R.
    pub lower: u32,
    /// AXI4-Lite, else AXI4.
    pub lite: bool,
    /// The width of the data bus in bytes.
    pub bus: u8,
    /// The width of the IDs in bits; 0 on AXI4-Lite.
    pub id_width: u8,
    /// How many beats each of its five queues has room for.
    pub depth: u32,
}
