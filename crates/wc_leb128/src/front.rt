ghost use Rattle.std.specs.Prelude.{◌≡◌, ◌<◌, ◌≤◌, ◌↔◌, ℕ, ℤ, List, MatchOption};
ghost use Rattle.wc_leb128.specs.Standard.Integers.{U, S, IsAtFront};

use crate::signed::Signed;
use crate::step::Step;
use crate::unsigned::Unsigned;

/// The unsigned integer of N bits that these bytes begin with (Core 1.0, 5.2.2), and what follows it; none where they
/// begin with no spelling. N is 1 to 64.
pub fn unsigned_at<const N: u32>(bytes: &[u8]) -> Option<(u64, &[u8])>
    requires some_bits { 0 < N }
    requires fits_u64 { N ≤ 64 }
    ensures { (n : ℕ) (y : List ℕ) → IsAtFront (U N) bytes.now n y
        ↔ MatchOption result ⊥ (λ found. (found.0 ≡ n) × (found.1.now ≡ y)) }
{
    let mut so_far = Unsigned::<N>::new();
    let mut rest = bytes;
    while let Some((byte, behind)) = rest.split_first() {
        rest = behind;
        match so_far.push(*byte) {
            Step::Done(natural) => return Some((natural, rest)),
            Step::Bad => return None,
            Step::More => {}
        }
    }
    None
}

/// The signed integer of N bits that these bytes begin with (Core 1.0, 5.2.2), and what follows it; none where they
/// begin with no spelling. N is 1 to 64.
pub fn signed_at<const N: u32>(bytes: &[u8]) -> Option<(i64, &[u8])>
    requires some_bits { 0 < N }
    requires fits_i64 { N ≤ 64 }
    ensures { (z : ℤ) (y : List ℕ) → IsAtFront (S N) bytes.now z y
        ↔ MatchOption result ⊥ (λ found. (found.0 ≡ z) × (found.1.now ≡ y)) }
{
    let mut so_far = Signed::<N>::new();
    let mut rest = bytes;
    while let Some((byte, behind)) = rest.split_first() {
        rest = behind;
        match so_far.push(*byte) {
            Step::Done(integer) => return Some((integer, rest)),
            Step::Bad => return None,
            Step::More => {}
        }
    }
    None
}
