//! Integers (Core 1.0, 5.2.2).

ghost use Rattle.std.specs.Prelude.{◌≡◌, ◌≤◌, ◌+◌, ◌∷◌};
ghost use Rattle.wc_leb128.specs.Standard.Integers.{U};
ghost use Rattle.wc_binary.specs.Reading.Reading.{unsigned_at};
ghost use Rattle.wc_binary.specs.Standard.Values.{u32 as u32_phrase};
ghost use Rattle.wc_binary.specs.Reading.Source.{Gives, Gave, TakesRest};

use crate::decoder::byte::any_byte;
use crate::fault::{BinFault, BinWhy, bad};
use crate::source::Source;
use wc_leb128::{Step, Unsigned, u32_behind, unsigned_in_one};

/// The unsigned integer of 32 bits whose first byte was read, where all of it lies ahead. Else nothing is taken.
#[inline(never)]
fn unsigned_ahead<S: Source>(first: u8, source: &mut S) -> Option<u32>
    requires { 128 ≤ first }
    ensures { TakesRest (U 32) first (S.input source.old) (S.input source.new) result }
{
    let (n, rest) = u32_behind(first, source.ahead(4)?)?;
    let count = 4 - rest.len();
    source.pass(count as u64);
    Some(n)
}

/// An unsigned integer of 32 bits, whose first byte was read at this place.
#[inline(never)]
fn unsigned_from<S: Source>(start: u64, first: u8, source: &mut S) -> Result<u32, BinFault>
    requires { (S.input source.old).place ≡ start + 1 }
    ensures { Gave (S.input source.old) (S.input source.new) result (λ x. unsigned_at 32 start (first ∷ x)) }
{
    let mut so_far = Unsigned::<32>::new();
    let mut at = start;
    let mut byte = first;
    loop {
        match so_far.push(byte) {
            Step::Done(value) => return Ok(value as u32),
            Step::Bad => return Err(bad(at, BinWhy::Integer)),
            Step::More => {}
        }
        at = source.place();
        byte = any_byte(source)?;
    }
}

/// An unsigned integer of 32 bits. Most have one byte, so that case comes first and is inlined.
#[inline(always)]
#[tactic(auto, unfolding(crate::specs::Standard::Values::u32))]
pub fn u32<S: Source>(source: &mut S) -> Result<u32, BinFault>
    ensures { Gives u32_phrase (S.input source.old) (S.input source.new) result }
{
    let at = source.place();
    let first = any_byte(source)?;
    match unsigned_in_one(first) {
        Some(n) => Ok(u32::from(n)),
        None => match unsigned_ahead(first, source) {
            Some(n) => Ok(n),
            None => unsigned_from(at, first, source),
        },
    }
}
