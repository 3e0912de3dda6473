//! Bytes one after another up to one that ends them, many at a time.

ghost use Rattle.std.specs.Prelude.{◌≡◌, ◌+◌, ◌<◌, ◌≤◌, ℕ, false, true, length, map, slice_index};
ghost use Rattle.std.specs.Simd.Lanes.{chunk, mask_l};

/// How many bytes are looked at together.
pub const CHUNK: usize = 16;

/// Which bytes end a run.
pub trait Ending {
    ghost use Rattle.std.specs.Prelude.{ℕ, Bool};

    ghost ends: { ℕ → Bool };

    /// A bit for each byte of a chunk, which is set where the byte ends a run.
    fn in_chunk(text: &[u8], at: usize) -> u64
        requires { at + 16 ≤ length text.now }
        ensures { result ≡ mask_l (map ends (chunk at 16 text.now)) };
}

/// How many bytes stand at the front of a text before one that ends a run. The last bytes, fewer than a chunk, aren't
/// looked at.
#[inline(always)]
pub fn count_before<E: Ending>(text: &[u8]) -> usize
    ensures within { result ≤ length text.now }
    ensures none { (k : ℕ) → k < result → E.ends (slice_index text.now k) ≡ false }
    ensures ended { result + 16 ≤ length text.now → E.ends (slice_index text.now result) ≡ true }
{
    let mut at = 0;
    while text.len() - at >= CHUNK {
        let ends = E::in_chunk(text, at);
        if ends != 0 {
            return at + ends.trailing_zeros() as usize;
        }
        at += CHUNK;
    }
    at
}
