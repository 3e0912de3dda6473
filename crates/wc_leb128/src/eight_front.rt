//! Signed integers that end among the eight bytes at the front, as nearly all do.

ghost use Rattle.std.specs.Prelude.{◌≡◌, ◌<◌, ◌≤◌, ◌↔◌, ℕ, ℤ, IsTrue, List, MatchOption};
ghost use Rattle.wc_leb128.specs.Standard.Integers.{S, IsAtFront};
ghost use Rattle.wc_leb128.specs.Standard.Shortest.{HoldsSigned};

use crate::eight::{eight_at, signed_of};
use crate::front::signed_at;

/// Whether N bits hold the number, with its sign.
#[inline(always)]
fn holds_signed<const N: u32>(n: i64) -> bool
    requires some_bits { 0 < N }
    requires fits_i64 { N ≤ 64 }
    ensures { IsTrue result → HoldsSigned N n }
{
    let high = n >> (N - 1);
    high == 0 || high == -1
}

/// The same as `signed_at` gives, by a call.
#[inline(never)]
fn signed_by_bytes<const N: u32>(bytes: &[u8]) -> Option<(i64, &[u8])>
    requires some_bits { 0 < N }
    requires fits_i64 { N ≤ 64 }
    ensures { (z : ℤ) (y : List ℕ) → IsAtFront (S N) bytes.now z y
        ↔ MatchOption result ⊥ (λ found. (found.0 ≡ z) × (found.1.now ≡ y)) }
{
    signed_at::<N>(bytes)
}

/// The signed integer of N bits that these bytes begin with (Core 1.0, 5.2.2), and what follows it; none where they
/// begin with no spelling. N is 1 to 64. It is inlined, and where eight bytes are at hand and the integer ends among
/// them, no branch depends on how many it has, which of constants couldn't be foretold.
#[inline(always)]
pub fn signed_front<const N: u32>(bytes: &[u8]) -> Option<(i64, &[u8])>
    requires some_bits { 0 < N }
    requires fits_i64 { N ≤ 64 }
    ensures { (z : ℤ) (y : List ℕ) → IsAtFront (S N) bytes.now z y
        ↔ MatchOption result ⊥ (λ found. (found.0 ≡ z) × (found.1.now ≡ y)) }
{
    let Some((all, count)) = eight_at(bytes) else {
        return signed_by_bytes::<N>(bytes);
    };
    let n = signed_of(all, count);
    if 7 * count >= N as usize + 7 || !holds_signed::<N>(n) {
        return signed_by_bytes::<N>(bytes);
    }
    Some((n, &bytes[count..]))
}
