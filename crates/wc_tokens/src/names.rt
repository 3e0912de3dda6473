//! Identifiers, and other runs of idchars.

ghost use Rattle.std.specs.Prelude.{◌+◌, ◌<◌, ◌≤◌, ◌⊎◌, ℕ, length, take, drop, slice_index};
ghost use Rattle.std.specs.List.{AllByRecursion};
ghost use Rattle.wc_tokens.specs.Standard.Lexemes.{IsIdchar, BeginsNoIdchar};
ghost use Rattle.wc_tokens.specs.Reading.Heads.{RunEnds};

use crate::chunks::{CHUNK, Ending, count_before};
use crate::classes::is_idchar;
use std::simd::prelude::*;

/// A byte that is no idchar, or a rare one.
struct Rare;

impl Ending for Rare {
    ghost use Rattle.wc_tokens.specs.Reading.Heads.{is_rare};

    ghost ends = { is_rare };

    #[inline(always)]
    fn in_chunk(text: &[u8], at: usize) -> u64 {
        let bytes = u8x16::from_slice(&text[at..]);
        let rare = bytes.simd_lt(u8x16::splat(b'-'))
            | bytes.simd_gt(u8x16::splat(b'z'))
            | bytes.simd_eq(u8x16::splat(b';'))
            | bytes.simd_eq(u8x16::splat(b'['))
            | bytes.simd_eq(u8x16::splat(b']'));
        rare.to_bitmask()
    }
}

/// How many idchars stand at the front, the first of which were seen, looked at two a round: a last byte without a
/// second isn't looked at.
#[inline(always)]
fn count_in_pairs(text: &[u8], seen: usize) -> usize
    requires within { seen ≤ length text.now }
    requires idchars { (k : ℕ) → k < seen → IsIdchar (slice_index text.now k) }
    ensures within { result ≤ length text.now }
    ensures idchars { AllByRecursion IsIdchar (take result text.now) }
    ensures ended { (length text.now ≤ result + 1) ⊎ BeginsNoIdchar (drop result text.now) }
{
    let mut at = seen;
    while at + 1 < text.len() {
        if !is_idchar(text[at]) {
            return at;
        }
        if !is_idchar(text[at + 1]) {
            return at + 1;
        }
        at += 2;
    }
    at
}

/// What follows a run of idchars, the first of which were seen.
#[inline(always)]
pub fn after_run_from(text: &[u8], seen: usize) -> &[u8]
    requires within { seen ≤ length text.now }
    requires idchars { (k : ℕ) → k < seen → IsIdchar (slice_index text.now k) }
    ensures { RunEnds text.now result.now }
{
    // Most bytes of a text pass here, so a round takes two.
    let mut at = count_in_pairs(text, seen);
    while at < text.len() && is_idchar(text[at]) {
        at += 1;
    }
    &text[at..]
}

/// What follows the run of idchars of a long identifier.
// It is apart, since most runs are words, which are shorter.
#[inline(never)]
fn after_long(text: &[u8]) -> &[u8]
    ensures { RunEnds text.now result.now }
{
    // The byte that ends the count may be an idchar too.
    after_run_from(text, count_before::<Rare>(text))
}

/// What follows the run of idchars of an identifier.
#[inline(always)]
pub fn after_name(text: &[u8]) -> &[u8]
    ensures { RunEnds text.now result.now }
{
    // A short name is passed faster without a chunk. Its first byte is nearly always an idchar.
    if text.len() >= CHUNK && text[1] >= b'-' && text[2] >= b'-' && text[3] >= b'-' {
        return after_long(text);
    }
    after_run_from(text, 0)
}
