//! Entries whose bytes have a bound.

use crate::entry::Kind;
use crate::instr::{BlockType, MemArg};
use wc_ops::{IndexOp, MemOp, SimpleOp};

/// An entry whose bytes have a bound, whatever its integers are: any but a table of labels, `else` and `end` (Core 1.0,
/// 5.4). These two are always brief.
#[derive(Clone, Copy, PartialEq, Eq)]
pub enum Bounded {
    Simple(SimpleOp),
    Index(IndexOp, u32),
    Mem(MemOp, MemArg),
    /// The index of a type.
    CallIndirect(u32),
    I32Const(i32),
    I64Const(i64),
    Begin(Kind, BlockType),
}
