//! Instructions of a text without those nested in them.

use wc_ops::{IndexOp, MemOp, SimpleOp};

/// What an instruction names (Core 1.0, 6.6.1).
#[derive(Clone, Copy, PartialEq, Eq)]
pub enum Operand {
    /// An index.
    Number(u32),
    /// The identifier of this place among those of the body.
    Named(u32),
}

/// An instruction other than `block`, `loop` and `if` (Core 1.0, 6.5). What is written behind it and has no fixed size
/// stands in the lists of its body.
#[derive(Clone, Copy, PartialEq, Eq)]
pub enum TextInstr {
    Simple(SimpleOp),
    Index(IndexOp, Operand),
    /// The exponent of the alignment and the offset in bytes, where they are written (6.5.5).
    Access {
        op: MemOp,
        align: Option<u8>,
        offset: Option<u32>,
    },
    /// The place of its first label among those of the body, and how many it has. The last one is the default.
    BrTable {
        first: u32,
        count: u32,
    },
    /// The place of its type use among those of the body.
    CallIndirect(u32),
    I32Const(i32),
    I64Const(i64),
}
