//! An integer that ends among the eight bytes at the front, together with its shortest spelling (Core 1.0, 5.2.2). This
//! one has the first groups of seven bits that any other has, so that no branch depends on how many bytes there are.

ghost use Rattle.std.specs.Prelude.{◌≡◌, ◌<◌, ◌≤◌, ◌+◌, ◌*◌, ◌^◌, ℕ, true, false, if◌then◌else◌, pos};
ghost use Rattle.std.specs.Prelude.{List, IfSome, IsNone, length as size, take};
ghost use Rattle.std.specs.Simd.Lanes.{number_l};
ghost use Rattle.wc_leb128.specs.Reading.Eight.{AreBytes, NoneEnds, IsWhole, groups, signed_groups};
ghost use Rattle.wc_leb128.specs.Reading.Respelled.{again, turned, HasGroups, HasSignedGroups, IsRespelled};

use crate::eight::{SEVENS, TOPS, eight_at};

/// An integer that was read, and its shortest spelling.
#[derive(Clone, Copy)]
pub struct Respelling {
    /// The integer.
    pub value: i64,
    /// How many bytes it had.
    pub count: usize,
    /// Its shortest spelling, and anything behind that.
    pub bytes: [u8; 8],
    /// How many bytes the shortest spelling has.
    pub length: usize,
}

/// This number for an integer with a sign, and zero for one without.
#[inline(always)]
fn half_of(signed: bool, half: u64) -> u64
    ensures { result ≡ (if signed then half else 0) }
{
    if signed { half } else { 0 }
}

/// The lowest groups of a number as an integer, whose sign is their highest bit where it has one.
#[inline(always)]
fn value_of(all: u64, count: usize, signed: bool) -> i64
    requires some { (0 < count) × (count ≤ 8) }
    requires low { all < 2 ^ 56 }
    ensures { (a : List ℕ) (q : ℕ) → IsWhole a → size a ≡ count → all ≡ groups a + 2 ^ (7 * count) * q
        → result ≡ (if signed then signed_groups a else pos (groups a)) }
{
    let bound = 1u64 << (7 * count - 1);
    let half = half_of(signed, bound);
    let sum = (all + half) & (2 * bound - 1);
    sum as i64 - half as i64
}

/// The bits of an integer, which are turned over in a negative one.
#[inline(always)]
fn bits_of(value: i64) -> u64
    ensures { result ≡ turned value }
{
    if value < 0 {
        (-1 - value) as u64
    } else {
        value as u64
    }
}

/// How many bytes the shortest spelling of an integer has that has these bits.
#[inline(always)]
fn length_of(bits: u64, signed: bool) -> usize
    ensures unsigned { signed ≡ false → HasGroups bits result }
    ensures signed { signed ≡ true → HasSignedGroups bits result }
{
    let places = 64 - bits.max(1).leading_zeros();
    (places as usize + 6 + usize::from(signed)) / 7
}

/// Bytes whose first so many are those of an integer that has the groups of the bytes of a word.
#[inline(always)]
fn marked(word: u64, count: usize) -> [u8; 8]
    requires { (0 < count) × (count ≤ 8) }
    ensures { (bytes : List ℕ) → size bytes ≡ 8 → AreBytes bytes → word ≡ number_l 256 bytes
        → take count result ≡ again (take count bytes) }
{
    let marks = TOPS & ((1u64 << (8 * (count - 1))) - 1);
    ((word & SEVENS) + marks).to_le_bytes()
}

/// The integer that these bytes begin with, with a sign or without one, and its shortest spelling; none where it
/// doesn't end among the first eight, or fewer are at hand.
#[inline(always)]
pub fn respelled(bytes: &[u8], signed: bool) -> Option<Respelling>
    ensures some { IfSome result (λ r. IsRespelled signed bytes.now r.value r.count r.length r.bytes) }
    ensures none { IsNone result → NoneEnds bytes.now }
{
    let (all, count) = eight_at(bytes)?;
    let chunk = bytes.first_chunk::<8>()?;
    let value = value_of(all, count, signed);
    let length = length_of(bits_of(value), signed);
    Some(Respelling {
        value,
        count,
        bytes: marked(u64::from_le_bytes(*chunk), length),
        length,
    })
}
