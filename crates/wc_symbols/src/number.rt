//! Words that say a number.

ghost use Rattle.std.specs.Prelude.{◌≡◌, ◌≢◌, ℕ, ◌^◌, ◌<◌, ◌∷◌, ◌⊎◌, List, MatchOption};
ghost use Rattle.wc_tokens.specs.Standard.Numbers.{Natural};
ghost use Rattle.wc_tokens.specs.Reading.Numbers.{IsNum};
ghost use Rattle.wc_symbols.specs.Standard.Numbers.{NaturalIs, SignedIs, OffsetIs, AlignIs};
ghost use Rattle.wc_symbols.specs.Standard.Symbols.{OrOther};

use crate::digits::short_decimal;
use crate::symbol::{Symbol, Value, bare, valued};
use wc_syntax::Kind;
use wc_tokens::{Num, integer, unsigned};

/// A natural number.
#[inline(always)]
pub fn natural(word: &str) -> Symbol
    ensures { OrOther (NaturalIs word.now) result }
{
    match short_decimal(word.as_bytes()) {
        Some(number) => valued(Kind::Natural32, Value::Number(u64::from(number))),
        None => long_natural(word),
    }
}

/// A natural number in any form.
#[inline(never)]
fn long_natural(word: &str) -> Symbol
    ensures { OrOther (NaturalIs word.now) result }
{
    match unsigned(word, 64) {
        Num::Value(number) if number <= 0xffff_ffff => valued(
            Kind::Natural32,
            Value::Number(number),
        ),
        Num::Value(number) => valued(Kind::Natural64, Value::Number(number)),
        Num::Range => bare(Kind::Natural),
        Num::NotANumber => bare(Kind::OtherWord),
    }
}

/// A number behind a plus sign.
#[inline(always)]
pub fn plus(word: &str) -> Symbol
    requires { (digits : List ℕ) × (word.now ≡ 43 ∷ digits) }
    ensures { OrOther (SignedIs word.now) result }
{
    match short_decimal(&word.as_bytes()[1..]) {
        Some(number) => valued(Kind::Signed32, Value::Number(u64::from(number))),
        None => long_signed(word),
    }
}

/// A number behind a minus sign.
#[inline(always)]
pub fn minus(word: &str) -> Symbol
    requires { (digits : List ℕ) × (word.now ≡ 45 ∷ digits) }
    ensures { OrOther (SignedIs word.now) result }
{
    match short_decimal(&word.as_bytes()[1..]) {
        Some(number) => valued(
            Kind::Signed32,
            Value::Number(u64::from(number).wrapping_neg()),
        ),
        None => long_signed(word),
    }
}

/// A number behind a sign, in any form.
#[inline(never)]
fn long_signed(word: &str) -> Symbol
    requires { (digits : List ℕ) × ((word.now ≡ 43 ∷ digits) ⊎ (word.now ≡ 45 ∷ digits)) }
    ensures { OrOther (SignedIs word.now) result }
{
    match integer(word, 64) {
        Num::Value(bits) if bits <= 0x7fff_ffff || bits >= 0xffff_ffff_8000_0000 => {
            valued(Kind::Signed32, Value::Number(bits))
        }
        Num::Value(bits) => valued(Kind::Signed64, Value::Number(bits)),
        Num::Range => bare(Kind::Signed),
        Num::NotANumber => bare(Kind::OtherWord),
    }
}

/// The natural number that a text spells, if 32 bits hold it.
#[inline(always)]
fn number_of_32(text: &str) -> Num
    ensures { IsNum (Natural text.now) (2 ^ 32) result }
{
    match short_decimal(text.as_bytes()) {
        Some(number) => Num::Value(u64::from(number)),
        None => unsigned(text, 32),
    }
}

/// What stands behind `offset=`.
#[inline(always)]
pub fn offset(text: &str) -> Symbol
    ensures { OffsetIs text.now result }
{
    match number_of_32(text) {
        Num::Value(number) => valued(Kind::MemOffset, Value::Offset(number as u32)),
        Num::Range => bare(Kind::MemOffsetRange),
        Num::NotANumber => bare(Kind::MemOffsetForm),
    }
}

/// The exponent of the power of two that the number is.
fn exponent_of(number: u32) -> Option<u32>
    ensures { MatchOption result ((e : ℕ) → number ≢ 2 ^ e) (λ e. (number ≡ 2 ^ e) × (e < 32)) }
{
    for exponent in 0..32 {
        if 1u32 << exponent == number {
            return Some(exponent);
        }
    }
    None
}

/// What stands behind `align=`.
#[inline(always)]
pub fn alignment(text: &str) -> Symbol
    ensures { AlignIs text.now result }
{
    match number_of_32(text) {
        Num::Value(number) => match exponent_of(number as u32) {
            Some(exponent) => valued(Kind::MemAlign, Value::Exponent(exponent)),
            None => bare(Kind::MemAlignPower),
        },
        Num::Range => bare(Kind::MemAlignRange),
        Num::NotANumber => bare(Kind::MemAlignForm),
    }
}
