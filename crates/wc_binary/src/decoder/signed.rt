//! Signed integers (Core 1.0, 5.2.2).

ghost use Rattle.std.specs.Prelude.{◌≡◌, ◌+◌, ◌<◌, ◌≤◌, ◌∷◌, IfOk};
ghost use Rattle.wc_leb128.specs.Standard.Shortest.{HoldsSigned};
ghost use Rattle.wc_binary.specs.Reading.Reading.{signed_at};
ghost use Rattle.wc_binary.specs.Standard.Instructions.{s32 as s32_phrase, s64 as s64_phrase};
ghost use Rattle.wc_binary.specs.Reading.Source.{Gives, Gave};

use crate::decoder::byte::any_byte;
use crate::fault::{BinFault, BinWhy, bad};
use crate::source::Source;
use wc_leb128::{Signed, Step, signed_in_one};

/// A signed integer of N bits, whose first byte was read at this place.
#[inline(never)]
pub fn signed_from<const N: u32, S: Source>(
    start: u64,
    first: u8,
    source: &mut S,
) -> Result<i64, BinFault>
    requires some_bits { 0 < N }
    requires fits_i64 { N ≤ 64 }
    requires behind { (S.input source.old).place ≡ start + 1 }
    ensures gives { Gave (S.input source.old) (S.input source.new) result (λ x. signed_at N start (first ∷ x)) }
    ensures holds { IfOk result (λ v. HoldsSigned N v) }
{
    let mut so_far = Signed::<N>::new();
    let mut at = start;
    let mut byte = first;
    loop {
        match so_far.push(byte) {
            Step::Done(value) => return Ok(value),
            Step::Bad => return Err(bad(at, BinWhy::Integer)),
            Step::More => {}
        }
        at = source.place();
        byte = any_byte(source)?;
    }
}

/// A signed integer of 32 bits. Most have one byte, so that case comes first and is inlined.
#[inline(always)]
#[tactic(auto, unfolding(crate::specs::Standard::Instructions::s32))]
pub fn s32<S: Source>(source: &mut S) -> Result<i32, BinFault>
    ensures { Gives s32_phrase (S.input source.old) (S.input source.new) result }
{
    let at = source.place();
    let first = any_byte(source)?;
    if let Some(n) = signed_in_one(first) {
        return Ok(i32::from(n));
    }
    let n = signed_from::<32, S>(at, first, source)?;
    Ok(n as i32)
}

/// A signed integer of 64 bits. Most have one byte, so that case comes first and is inlined.
#[inline(always)]
#[tactic(auto, unfolding(crate::specs::Standard::Instructions::s64))]
pub fn s64<S: Source>(source: &mut S) -> Result<i64, BinFault>
    ensures { Gives s64_phrase (S.input source.old) (S.input source.new) result }
{
    let at = source.place();
    let first = any_byte(source)?;
    if let Some(n) = signed_in_one(first) {
        return Ok(i64::from(n));
    }
    signed_from::<64, S>(at, first, source)
}
