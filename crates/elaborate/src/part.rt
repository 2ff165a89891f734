//! The kinds of plan nodes.

/// What a node of a plan is.
#[derive(Debug, Clone, Copy, PartialEq, Eq)]
pub enum Part {
    /// It issues transactions.
    Manager,
    /// It answers AXI4 transactions from bytes that it keeps.
    Memory,
    /// It answers AXI4-Lite transactions from bytes that it keeps.
    LiteMemory,
    /// It passes everything on.
    Slice,
    /// It joins many links into one.
    Mux,
    /// It chooses the link below by the address. Its last port leads to an error subordinate.
    Demux,
    /// It answers each transaction with DECERR.
    Error,
    /// It maps wide IDs to narrower ones.
    Remap,
    /// It cuts bursts into single beats.
    Split,
    /// It leads from a narrow bus to a wider one.
    Up,
    /// It leads from a wide bus to a narrower one. A splitter stands above it.
    Down,
    /// It leads from AXI4 to AXI4-Lite. A splitter stands above it.
    Lite,
}
