//! Words that are names.

ghost use Rattle.std.specs.Prelude.{◌≡◌};
ghost use Rattle.wc_symbols.specs.Standard.Names.{NameIs, op_kind};
ghost use Rattle.wc_symbols.specs.Standard.Symbols.{OrOther};

use crate::keyword::keyword;
use crate::symbol::{Symbol, Value, bare, valued};
use wc_ops::{Op, OpName};
use wc_syntax::Kind;

/// The kind of an instruction's name.
#[inline(always)]
pub fn op_kind(op: Op) -> Kind
    ensures { result ≡ op_kind op }
{
    match op {
        Op::Simple(_) => Kind::Simple,
        Op::Index(_) => Kind::Indexed,
        Op::Mem(_) => Kind::Access,
        Op::BrTable => Kind::BrTable,
        Op::CallIndirect => Kind::CallIndirect,
        Op::I32Const => Kind::Const32,
        Op::I64Const => Kind::Const64,
        Op::Block | Op::Loop => Kind::Region,
        Op::If => Kind::If,
    }
}

/// What a word says as a name.
#[inline(always)]
pub fn name(word: &str) -> Symbol
    ensures { OrOther (NameIs word.now) result }
{
    if let Some(symbol) = keyword(word) {
        return symbol;
    }
    match Op::of_name(word) {
        OpName::Known(op) => valued(op_kind(op), Value::Instruction(op)),
        OpName::Float => bare(Kind::FloatName),
        OpName::Unknown => bare(Kind::OtherWord),
    }
}
