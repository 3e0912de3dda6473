//! What a token is to the parser.

ghost use Rattle.std.specs.Prelude.{◌≡◌};
ghost use Rattle.wc_symbols.specs.Standard.Symbols.{bare, valued};

use wc_ops::{Op, ValType};
use wc_syntax::Kind;

/// The value of a token.
#[derive(Clone, Copy, Debug, PartialEq, Eq)]
pub enum Value {
    /// None: the kind says all, or the text of an identifier or a string does.
    Nothing,
    /// A natural number; of a number behind a sign the two's complement in 64 bits.
    Number(u64),
    /// The number behind `offset=`.
    Offset(u32),
    /// The number behind `align=` is two to this power.
    Exponent(u32),
    /// The instruction of a name.
    Instruction(Op),
    /// The value type of a name.
    ValType(ValType),
}

/// What a token is to the grammar and to the fields of a text.
#[derive(Clone, Copy, Debug, PartialEq, Eq)]
pub struct Symbol {
    /// Its kind.
    pub kind: Kind,
    /// Its value.
    pub value: Value,
}

/// A kind that says all.
#[inline(always)]
pub fn bare(kind: Kind) -> Symbol
    ensures { result ≡ bare kind }
{
    valued(kind, Value::Nothing)
}

/// A kind with a value.
#[inline(always)]
pub fn valued(kind: Kind, value: Value) -> Symbol
    ensures { result ≡ valued kind value }
{
    Symbol { kind, value }
}
