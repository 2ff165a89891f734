//! What a link is.

/// A link's protocol, the bytes of its bus, and the bits of its IDs.
#[derive(Debug, Clone, Copy, PartialEq, Eq, Default)]
pub struct LinkKind {
    /// AXI4-Lite, else AXI4.
    pub lite: bool,
    /// The width of the data bus in bytes.
    pub bus: u8,
    /// The width of an ID in bits.
    pub id_width: u8,
}
