//! The entries of a body: instructions in one row, with a mark where nested ones begin and end.

use crate::instr::{BlockType, Instr};

/// What begins (Core 1.0, 2.4.5).
#[derive(Clone, Copy, PartialEq, Eq)]
pub enum Kind {
    Block,
    Loop,
    If,
}

/// One entry of a body.
#[derive(Drop)]
pub enum Entry<'a> {
    /// An instruction in which none is nested.
    Plain(Instr<'a>),
    /// The instructions up to the matching `End` are nested in this one.
    Begin(Kind, BlockType),
    /// Between the two parts of an `if`.
    Else,
    /// The end of the innermost one that has begun.
    End,
}
