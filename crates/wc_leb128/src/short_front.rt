ghost use Rattle.std.specs.Prelude.{◌≡◌, ◌≤◌, ◌∷◌, ◌↔◌, ℕ, List, MatchOption};
ghost use Rattle.wc_leb128.specs.Standard.Integers.{U, IsAtFront};

/// The unsigned integer of 32 bits that these bytes begin with (Core 1.0, 5.2.2), and what follows it; none where they
/// begin with no spelling. It is inlined, and has no loop.
#[inline(always)]
pub fn u32_front(bytes: &[u8]) -> Option<(u32, &[u8])>
    ensures { (n : ℕ) (y : List ℕ) → IsAtFront (U 32) bytes.now n y
        ↔ MatchOption result ⊥ (λ found. (found.0 ≡ n) × (found.1.now ≡ y)) }
{
    let (first, rest) = bytes.split_first()?;
    u32_behind(*first, rest)
}

/// The same of one whose first byte was taken.
#[inline(always)]
pub fn u32_behind(first: u8, bytes: &[u8]) -> Option<(u32, &[u8])>
    ensures { (n : ℕ) (y : List ℕ) → IsAtFront (U 32) (first ∷ bytes.now) n y
        ↔ MatchOption result ⊥ (λ found. (found.0 ≡ n) × (found.1.now ≡ y)) }
{
    if first < 128 {
        return Some((u32::from(first), bytes));
    }
    let low = u32::from(first - 128);
    let (second, rest) = bytes.split_first()?;
    if *second < 128 {
        return Some((low + 0x80 * u32::from(*second), rest));
    }
    let low = low + 0x80 * u32::from(*second - 128);
    let (third, rest) = rest.split_first()?;
    if *third < 128 {
        return Some((low + 0x4000 * u32::from(*third), rest));
    }
    let low = low + 0x4000 * u32::from(*third - 128);
    let (fourth, rest) = rest.split_first()?;
    if *fourth < 128 {
        return Some((low + 0x20_0000 * u32::from(*fourth), rest));
    }
    let low = low + 0x20_0000 * u32::from(*fourth - 128);
    let (fifth, rest) = rest.split_first()?;
    if *fifth >= 16 {
        return None;
    }
    Some((low + 0x1000_0000 * u32::from(*fifth), rest))
}
