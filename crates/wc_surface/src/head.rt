//! The heads of blocks, and bodies.

use crate::code::TextCode;
use crate::id::Id;
use crate::instr::Operand;
use crate::rare::Rare;
use crate::type_use::TypeUse;
use wc_ast::List;
use wc_ops::ValType;

/// The type that is written at a block, a loop or an if (Core 2.0, 6.5.2).
#[derive(Clone, Copy, PartialEq, Eq)]
pub enum HeadType {
    /// No parameters, no more than one result, and no index.
    Short(Option<ValType>),
    /// The type use of this place among those of the body.
    Use(u32),
}

/// What is written at a block, a loop or an if, and where it turns and ends (Core 1.0, 6.5.2).
#[derive(Drop)]
pub struct Head<'a> {
    /// The number of the word `block`, `loop` or `if`. It rises along the heads of a body.
    pub token: u32,
    /// The identifier of its label.
    pub label: Rare<Id<'a>>,
    /// Its type.
    pub ty: HeadType,
    /// The identifier behind `else`.
    pub else_id: Rare<Id<'a>>,
    /// The identifier behind `end`.
    pub end_id: Rare<Id<'a>>,
}

/// The instructions of a function, of a first value or of an offset (Core 1.0, 6.5.8), and the lists that they name by
/// places.
#[derive(Drop)]
pub struct TextBody<'a> {
    /// The instructions.
    pub code: TextCode,
    /// The heads of blocks, loops and ifs.
    pub heads: List<Head<'a>>,
    /// The type uses, in the order of the text.
    pub uses: List<TypeUse<'a>>,
    /// The identifiers of what instructions name.
    pub ids: List<Id<'a>>,
    /// The labels of each `br_table`, its default last.
    pub labels: List<Operand>,
}
