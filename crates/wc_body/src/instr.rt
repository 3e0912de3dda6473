//! Instructions without those nested in them.

use crate::labels::Labels;
use wc_ops::{IndexOp, MemOp, SimpleOp, ValType};

/// Where a load or a store reads or writes (Core 1.0, 2.4.4).
#[derive(Clone, Copy, PartialEq, Eq)]
pub struct MemArg {
    /// The exponent of the alignment: two to this power bytes.
    pub align: u32,
    /// How far from the address operand, in bytes.
    pub offset: u32,
}

/// The type of a block (Core 2.0, 2.4.8).
#[derive(Clone, Copy, PartialEq, Eq)]
pub enum BlockType {
    /// No parameters and no results.
    Empty,
    /// No parameters and one result.
    Value(ValType),
    /// The function type of this index.
    Index(u32),
}

/// An instruction other than `block`, `loop` and `if` (Core 1.0, 2.4).
#[derive(Drop)]
pub enum Instr<'a> {
    Simple(SimpleOp),
    Index(IndexOp, u32),
    Mem(MemOp, MemArg),
    /// The default label, and the labels before it.
    BrTable(u32, Labels<'a>),
    /// The index of a type.
    CallIndirect(u32),
    I32Const(i32),
    I64Const(i64),
}
