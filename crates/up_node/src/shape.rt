//! What of an up converter never changes.

/// An up converter's links and buses.
#[derive(Clone, Copy)]
pub struct UpShape {
    /// The number of the link above it.
    pub upper: u32,
    /// The number of the link below it.
    pub lower: u32,
    /// The width of the bus above it in bytes.
    pub narrow: u8,
    /// The width of the bus below it in bytes, which is greater.
    pub wide: u8,
}
