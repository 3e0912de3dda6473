//! Instructions of at most two bytes, as most are.

use wc_ops::{IndexOp, SimpleOp};

/// An instruction that its opcode and at most one byte more say (Core 1.0, 5.4).
#[derive(Clone, Copy, PartialEq, Eq)]
pub enum Short {
    Simple(SimpleOp),
    Index(IndexOp, u8),
    I32Const(i8),
    I64Const(i8),
}
