//! What each word says.

ghost use Rattle.wc_symbols.specs.Standard.Words.{WordIs};

use crate::name::name;
use crate::number::{alignment, minus, natural, offset, plus};
use crate::shape::{Shape, shape_of};
use crate::symbol::Symbol;

/// What a word says.
#[inline(always)]
pub fn word(text: &str) -> Symbol
    ensures { WordIs text.now result }
{
    match shape_of(text.as_bytes()) {
        Shape::Natural => natural(text),
        Shape::Plus => plus(text),
        Shape::Minus => minus(text),
        Shape::Offset => offset(&text["offset=".len()..]),
        Shape::Align => alignment(&text["align=".len()..]),
        Shape::Name => name(text),
    }
}
