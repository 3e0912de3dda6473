//! Lines.

ghost use Rattle.std.specs.Prelude.{◌≡◌, ◌≢◌, ◌<◌, ◌≤◌, ℕ, length, slice_index};
ghost use Rattle.wc_tokens.specs.Reading.Heads.{LineEnds};

use crate::chunks::{Ending, count_before};
use std::simd::prelude::*;

/// A line feed, which ends a line.
struct LineFeed;

impl Ending for LineFeed {
    ghost use Rattle.std.specs.Prelude.{◌==◌};

    ghost ends = { λ c. c == 10 };

    #[inline(always)]
    fn in_chunk(text: &[u8], at: usize) -> u64 {
        u8x16::from_slice(&text[at..])
            .simd_eq(u8x16::splat(b'\n'))
            .to_bitmask()
    }
}

/// How many bytes stand at the front of a text before a line feed, at the most as many as said. The first were seen.
#[inline(always)]
fn count_to(text: &[u8], seen: usize, most: usize) -> usize
    requires within { seen ≤ most }
    requires most { most ≤ length text.now }
    requires no_feed { (k : ℕ) → k < seen → slice_index text.now k ≢ 10 }
    ensures within { result ≤ most }
    ensures no_feed { (k : ℕ) → k < result → slice_index text.now k ≢ 10 }
    ensures ended { result < most → slice_index text.now result ≡ 10 }
{
    let mut at = seen;
    while at < most && text[at] != b'\n' {
        at += 1;
    }
    at
}

/// What follows a line.
pub fn after_line(text: &[u8]) -> &[u8]
    ensures { LineEnds text.now result.now }
{
    // A few characters are passed faster one by one.
    let few = text.len().min(8);
    let at = count_to(text, 0, few);
    if at < few {
        return &text[at..];
    }
    let seen = few + count_before::<LineFeed>(&text[few..]);
    &text[count_to(text, seen, text.len())..]
}
