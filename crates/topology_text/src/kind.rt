//! The kinds of nodes, and spans of addresses.

/// What a node of a topology is.
#[derive(Debug, Clone, Copy, PartialEq, Eq)]
pub enum Kind {
    /// It issues transactions.
    Manager,
    /// It answers AXI4 transactions from bytes that it keeps.
    Memory,
    /// It answers AXI4-Lite transactions from bytes that it keeps.
    LiteMemory,
    /// It passes everything on.
    Slice,
    /// It joins many links into one.
    Mux,
    /// It chooses the link below by the address.
    Demux,
    /// It joins many links, and chooses one of many by the address.
    Crossbar,
    /// It maps wide IDs to narrower ones.
    Remap,
    /// It leads from a narrow bus to a wider one.
    Up,
    /// It leads from a wide bus to a narrower one.
    Down,
    /// It leads from AXI4 to AXI4-Lite.
    Lite,
}

/// The byte addresses from `base` on, `size` of them.
#[derive(Debug, Clone, Copy, PartialEq, Eq, Default)]
pub struct Span {
    /// The lowest address.
    pub base: u64,
    /// The number of addresses, in bytes.
    pub size: u64,
}
