//! Blanks one after another, many at a time.

ghost use Rattle.std.specs.Prelude.{◌≡◌, ◌<◌, ◌≤◌, ℕ, true, IsTrue, length, slice_index};
ghost use Rattle.wc_tokens.specs.Standard.Gaps.{is_blank};

use crate::chunks::{CHUNK, Ending, count_before};
use std::simd::prelude::*;

/// A byte that isn't a blank.
struct Other;

impl Ending for Other {
    ghost use Rattle.std.specs.Prelude.{not};
    ghost use Rattle.wc_tokens.specs.Standard.Gaps.{is_blank};

    ghost ends = { λ c. not (is_blank c) };

    #[inline(always)]
    fn in_chunk(text: &[u8], at: usize) -> u64 {
        let bytes = u8x16::from_slice(&text[at..]);
        let others = bytes.simd_ne(u8x16::splat(b' '))
            & bytes.simd_ne(u8x16::splat(b'\t'))
            & bytes.simd_ne(u8x16::splat(b'\n'))
            & bytes.simd_ne(u8x16::splat(b'\r'));
        others.to_bitmask()
    }
}

/// Whether a text has a chunk, and its first three bytes may all be blanks.
// Fewer blanks are passed faster one by one. The third is looked at first, since it is the least likely to be one.
#[inline(always)]
fn begins_many(text: &[u8]) -> bool
    ensures { IsTrue result → 16 ≤ length text.now }
{
    text.len() >= CHUNK && text[2] <= b' ' && text[1] <= b' ' && text[0] <= b' '
}

/// How many blanks stand at the front of a text, where they are many; else none is counted. The last bytes, fewer
/// than a chunk, aren't looked at.
#[inline(always)]
pub fn count_blanks(text: &[u8]) -> usize
    ensures within { result ≤ length text.now }
    ensures blanks { (k : ℕ) → k < result → is_blank (slice_index text.now k) ≡ true }
{
    if !begins_many(text) {
        return 0;
    }
    count_before::<Other>(text)
}
