//! Bytes of strings that stand for themselves, many at a time.

ghost use Rattle.std.specs.Prelude.{◌<◌, ◌≤◌, ℕ, length, slice_index, IfSome};
ghost use Rattle.wc_tokens.specs.Standard.Gaps.{Gaps};
ghost use Rattle.wc_tokens.specs.Standard.Strings.{IsPlain};
ghost use Rattle.wc_tokens.specs.Reading.Heads.{BeginsPlain};

use crate::bytes::behind;
use crate::chunks::{Ending, count_before};
use crate::heads::behind_blanks;
use crate::simple::is_plain;
use std::simd::prelude::*;

/// A byte that doesn't stand for itself.
struct Special;

impl Ending for Special {
    ghost use Rattle.wc_tokens.specs.Reading.Simple.{is_special};

    ghost ends = { is_special };

    #[inline(always)]
    fn in_chunk(text: &[u8], at: usize) -> u64 {
        let bytes = u8x16::from_slice(&text[at..]);
        let special = bytes.simd_lt(u8x16::splat(b' '))
            | bytes.simd_eq(u8x16::splat(127))
            | bytes.simd_eq(u8x16::splat(b'"'))
            | bytes.simd_eq(u8x16::splat(b'\\'));
        special.to_bitmask()
    }
}

/// How many bytes at the front stand for themselves, up to the first that doesn't.
#[inline(always)]
pub fn plain_run(text: &[u8]) -> usize
    ensures within { result ≤ length text.now }
    ensures plain { (k : ℕ) → k < result → IsPlain (slice_index text.now k) }
{
    let mut at = count_before::<Special>(text);
    while at < text.len() && is_plain(text[at]) {
        at += 1;
    }
    at
}

/// A string in which nothing is escaped: the text from it on, and what follows it.
#[derive(Clone, Copy)]
pub struct PlainString<'a> {
    /// The text from its first quote on.
    pub here: &'a [u8],
    /// What follows its last quote.
    pub rest: &'a [u8],
}

/// The string that comes behind blanks, where nothing is escaped in it.
#[inline(always)]
pub fn plain_string(text: &[u8]) -> Option<PlainString<'_>>
    ensures gaps { IfSome result (λ string. Gaps text.now string.here.now) }
    ensures string { IfSome result (λ string. BeginsPlain string.here.now string.rest.now) }
{
    let front = behind_blanks(text)?;
    match front.first {
        b'"' => {
            let run = plain_run(front.rest);
            let rest = behind(&front.rest[run..], b'"')?;
            Some(PlainString {
                here: front.here,
                rest,
            })
        }
        _ => None,
    }
}
