//! The types of tables, memories and globals.

use wc_ops::ValType;

/// The size range of a table, in elements, or of a memory, in pages of 65,536 bytes (Core 1.0, 2.3.4).
#[derive(Clone, Copy, Debug, PartialEq, Eq)]
pub struct Limits {
    /// The least size.
    pub min: u32,
    /// The greatest size, where there is one. It may lie below `min`: a valid module has no such limits.
    pub max: Option<u32>,
}

/// The type of a global variable (Core 1.0, 2.3.7).
#[derive(Clone, Copy, Debug, PartialEq, Eq)]
pub struct GlobalType {
    pub ty: ValType,
    /// Whether it may be written.
    pub mutable: bool,
}
