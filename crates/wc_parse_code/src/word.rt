//! Kept tokens, and what each says by itself.

ghost use Rattle.std.specs.Prelude.{◌≡◌, OnOk, IfOk};
ghost use Rattle.wc_parse_code.specs.Drafting.Words.{identifier_of, number_in, index_of, operand_of, ids_with};

use crate::row::Row;
use std::alloc::AllocError;
use std::marker::Model;
use wc_surface::{Id, Index, Operand};
use wc_symbols::{Symbol, Value};

/// A kept token. A contract sees its number, its kind and its value, and its text as bytes.
#[derive(Drop)]
pub struct Word<'a> {
    /// Its number among all tokens of the text.
    pub token: u32,
    /// Its kind and its value.
    pub symbol: Symbol,
    /// Its text: of an identifier with the `$`, of a string with the quotes.
    pub text: &'a str,
}

impl<'a> Model for Word<'a> {
    ghost use Rattle.wc_parse_code.specs.Standard.Tokens.{KeptToken, kept_token};

    ghost Value = { KeptToken };

    ghost view = { λ word. kept_token word.token word.symbol word.text.now };
}

/// The token as an identifier (Core 1.0, 6.3.5). It takes no memory.
#[inline(always)]
pub fn identifier_of<'a>(word: &Word<'a>) -> Id<'a>
    ensures { result ≡ identifier_of word.now }
{
    Id::new(word.token, word.text)
}

/// The natural number of 32 bits that a value is; none where it is no number, or a greater one (Core 1.0, 6.3.1).
#[inline(always)]
pub fn number_in(value: Value) -> Option<u32>
    ensures { result ≡ number_in value }
{
    match value {
        Value::Number(number) if number < 0x1_0000_0000 => Some(number as u32),
        _ => None,
    }
}

/// The token as an index: a number of 32 bits, or else an identifier (Core 1.0, 6.6.1). It takes no memory.
pub fn index_of<'a>(word: &Word<'a>) -> Index<'a>
    ensures { result ≡ index_of word.now }
{
    match number_in(word.symbol.value) {
        Some(number) => Index::Number {
            token: word.token,
            value: number,
        },
        None => Index::Named(identifier_of(word)),
    }
}

/// An index as an operand. An identifier is put behind those of the body. The error is want of memory.
#[inline(always)]
pub(crate) fn operand_of<'a>(word: &Word<'a>, ids: &mut Row<Id<'a>>) -> Result<Operand, AllocError>
    ensures operand { IfOk result (λ operand. operand ≡ operand_of word.now ids.old) }
    ensures ids { OnOk result (ids.new ≡ ids_with word.now ids.old) }
{
    match number_in(word.symbol.value) {
        Some(number) => Ok(Operand::Number(number)),
        None => {
            let place = ids.place_behind();
            ids.push(identifier_of(word))?;
            Ok(Operand::Named(place))
        }
    }
}
