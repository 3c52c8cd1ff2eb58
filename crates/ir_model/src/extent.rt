//! Extents.

/// The greatest size of an object, in bytes.
pub const SIZE_LIMIT: u32 = 65_536;

/// How many bytes a type has, and of how many its address is a multiple.
#[derive(Clone, Copy)]
pub struct Extent {
    /// The size in bytes.
    pub size: u32,
    /// The alignment in bytes.
    pub align: u32,
}
