//! What may still follow a name.

use wc_ops::{IndexOp, MemOp};
use wc_surface::Id;

/// What may still follow the last name, and what of it was said.
#[derive(Drop)]
pub enum Awaiting<'a> {
    /// Nothing.
    Nothing,
    /// The index of this instruction.
    Index(IndexOp),
    /// The exponent of the alignment and the offset of this load or store.
    MemArg(MemOp, Option<u8>, Option<u32>),
    /// Labels of a `br_table`, whose first has this place among those of the body.
    Labels(usize),
    /// The type use of a `call_indirect`.
    Use,
    /// The number of an `i32.const`.
    Literal32,
    /// The number of an `i64.const`.
    Literal64,
    /// The label of a block, and its type.
    Head(Option<Id<'a>>),
    /// The identifier behind the `else` of the block whose head has this place.
    ElseId(u32),
    /// The identifier behind its `end`.
    EndId(u32),
}
