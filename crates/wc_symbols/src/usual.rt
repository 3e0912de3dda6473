//! The most usual words: names of instructions and of types, short numbers and keywords, found before a word is asked
//! for all that it may say.

ghost use Rattle.std.specs.Prelude.{◌≡◌, IfSome};
ghost use Rattle.wc_symbols.specs.Standard.Names.{op_kind};
ghost use Rattle.wc_symbols.specs.Standard.Symbols.{bare, valued};
ghost use Rattle.wc_symbols.specs.Standard.Words.{WordIs};

use crate::digits::short_decimal;
use crate::keyword::{keyword_kind, type_named};
use crate::name::op_kind;
use crate::symbol::{Symbol, Value, bare, valued};
use wc_ops::{Op, ValType};
use wc_syntax::Kind;

/// The instruction that the word is the name of, if it is found so. It takes no memory.
#[inline(always)]
pub fn usual_name(word: &str) -> Option<Op>
    ensures { IfSome result (λ op. WordIs word.now (valued (op_kind op) (Value.Instruction op))) }
{
    Op::named(word)
}

/// The natural number that the word is, if it is found so. It takes no memory.
#[inline(always)]
pub fn usual_number(word: &str) -> Option<u32>
    ensures { IfSome result (λ number. WordIs word.now (valued Kind.Natural32 (Value.Number number))) }
{
    short_decimal(word.as_bytes())
}

/// The kind of the keyword that the word is, if it is found so. It takes no memory.
#[inline(always)]
pub fn usual_keyword(word: &str) -> Option<Kind>
    ensures { IfSome result (λ kind. WordIs word.now (bare kind)) }
{
    keyword_kind(word)
}

/// The type that the word is the name of, if it is found so. It takes no memory.
#[inline(always)]
pub fn usual_type(word: &str) -> Option<ValType>
    ensures { IfSome result (λ ty. WordIs word.now (valued Kind.ValType (Value.ValType ty))) }
{
    type_named(word)
}

/// What the name of an instruction is.
#[inline(always)]
pub fn symbol_of_name(op: Op) -> Symbol
    ensures { result ≡ valued (op_kind op) (Value.Instruction op) }
{
    valued(op_kind(op), Value::Instruction(op))
}

/// What a natural number of 32 bits is.
#[inline(always)]
pub fn symbol_of_number(number: u32) -> Symbol
    ensures { result ≡ valued Kind.Natural32 (Value.Number number) }
{
    valued(Kind::Natural32, Value::Number(u64::from(number)))
}

/// What a keyword is.
#[inline(always)]
pub fn symbol_of_keyword(kind: Kind) -> Symbol
    ensures { result ≡ bare kind }
{
    bare(kind)
}

/// What the name of a type is.
#[inline(always)]
pub fn symbol_of_type(ty: ValType) -> Symbol
    ensures { result ≡ valued Kind.ValType (Value.ValType ty) }
{
    valued(Kind::ValType, Value::ValType(ty))
}
