//! Eight bytes that are looked at together. Most integers end among them (Core 1.0, 5.2.2), and no branch depends on
//! where.

ghost use Rattle.std.specs.Prelude.{◌≡◌, ◌≤◌, ◌<◌, ◌+◌, ◌*◌, ◌^◌, ℕ, List, IfSome, IsNone, length, take};
ghost use Rattle.std.specs.Simd.Lanes.{number_l};
ghost use Rattle.wc_leb128.specs.Reading.Eight.{AreBytes, AreHigh, NoneEnds, IsWhole, EndsAmong, groups, signed_groups};

/// The top bit of each byte.
pub(crate) const TOPS: u64 = 0x8080_8080_8080_8080;

/// The low seven bits of each byte.
pub(crate) const SEVENS: u64 = 0x7f7f_7f7f_7f7f_7f7f;

/// The low seven bits of the bytes of a word, as one number.
#[inline(always)]
fn groups_of(word: u64) -> u64
    ensures { (bytes : List ℕ) → length bytes ≡ 8 → AreBytes bytes → word ≡ number_l 256 bytes
        → result ≡ groups bytes }
{
    let low = word & SEVENS;
    let pairs = (low & 0x007f_007f_007f_007f) + 0x80 * (low / 0x100 & 0x007f_007f_007f_007f);
    let fours = (pairs & 0x3fff_0000_3fff) + 0x4000 * (pairs / 0x1_0000 & 0x3fff_0000_3fff);
    (fours & 0xfff_ffff) + 0x1000_0000 * (fours / 0x1_0000_0000)
}

/// How many bytes of a word there are up to the first one below 128; none where each is 128 or more.
#[inline(always)]
fn count_to_end(word: u64) -> Option<u32>
    ensures some { (bytes : List ℕ) → length bytes ≡ 8 → AreBytes bytes → word ≡ number_l 256 bytes
        → IfSome result (λ n. (n ≤ 8) × IsWhole (take n bytes)) }
    ensures none { (bytes : List ℕ) → length bytes ≡ 8 → AreBytes bytes → word ≡ number_l 256 bytes
        → IsNone result → AreHigh bytes }
{
    let ends = (word & TOPS) ^ TOPS;
    if ends == 0 {
        return None;
    }
    Some(ends.trailing_zeros() / 8 + 1)
}

/// The groups of seven bits of the first eight bytes as one number, and how many bytes there are up to the first that
/// ends an integer; none where none of the eight does, or fewer are at hand.
#[inline(always)]
pub(crate) fn eight_at(bytes: &[u8]) -> Option<(u64, usize)>
    ensures some { IfSome result (λ f. EndsAmong bytes.now f.0 f.1) }
    ensures none { IsNone result → NoneEnds bytes.now }
{
    let chunk = bytes.first_chunk::<8>()?;
    let word = u64::from_le_bytes(*chunk);
    let count = count_to_end(word)?;
    Some((groups_of(word), count as usize))
}

/// The lowest groups of a number as a signed one, whose sign is their highest bit.
#[inline(always)]
pub(crate) fn signed_of(all: u64, count: usize) -> i64
    requires some { (0 < count) × (count ≤ 8) }
    requires low { all < 2 ^ 56 }
    ensures { (a : List ℕ) (q : ℕ) → IsWhole a → length a ≡ count → all ≡ groups a + 2 ^ (7 * count) * q
        → result ≡ signed_groups a }
{
    let half = 1u64 << (7 * count - 1);
    let turned = (all + half) & (2 * half - 1);
    turned as i64 - half as i64
}
