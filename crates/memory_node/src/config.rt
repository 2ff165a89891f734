//! What a memory is made from.

/// The byte addresses from `base` on, `size` of them.
#[derive(Clone, Copy, Debug, PartialEq, Eq, Default)]
pub struct Range {
    pub base: u64,
    pub size: u64,
}

/// A memory's range of byte addresses (whole pages of 4096 bytes that end at 2^63 or below), the
/// width of its bus in bytes (4, 8, 16, 32, 64 or 128), and the value of the bytes that nothing has
/// written.
#[derive(Clone, Copy, Debug, PartialEq, Eq, Default)]
pub struct MemoryConfig {
    pub base: u64,
    pub size: u64,
    pub bus: u8,
    pub fill: u8,
}
