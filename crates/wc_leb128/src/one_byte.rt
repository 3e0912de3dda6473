//! Integers of one byte, which most are (Core 1.0, 5.2.2). Readers look at them first, in place.

ghost use Rattle.std.specs.Prelude.{◌≡◌, ◌∷◌, [], ◌≤◌, ◌↔◌, ℕ, ℤ, Some};
ghost use Rattle.wc_leb128.specs.Standard.Integers.{U, S};
ghost use Rattle.wc_leb128.specs.Standard.OneByte.{unsigned_in_one, signed_in_one};

/// The unsigned integer that a byte spells on its own, at each width of 7 bits or more; none where more bytes follow.
#[inline(always)]
pub fn unsigned_in_one(byte: u8) -> Option<u8>
    ensures { result ≡ unsigned_in_one byte }
{
    if byte < 128 { Some(byte) } else { None }
}

/// The signed integer that a byte spells on its own, at each width of 7 bits or more; none where more bytes follow.
#[inline(always)]
pub fn signed_in_one(byte: u8) -> Option<i8>
    ensures { result ≡ signed_in_one byte }
{
    if byte < 64 {
        return Some(byte as i8);
    }
    if byte < 128 {
        Some((i16::from(byte) - 128) as i8)
    } else {
        None
    }
}

/// What a byte spells on its own is what the standard has it spell.
pub fn spelled_in_one()
    ensures unsigned { (N b n : ℕ) → 7 ≤ N → (unsigned_in_one b ≡ Some n) ↔ U N (b ∷ []) n }
    ensures signed { (N b : ℕ) (z : ℤ) → 7 ≤ N → (signed_in_one b ≡ Some z) ↔ S N (b ∷ []) z }
{}
