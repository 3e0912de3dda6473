//! Integers that bytes begin with, spelled by the fewest bytes.

ghost use Rattle.std.specs.Prelude.{◌≡◌, ◌≤◌, ◌++◌, ◌∷◌, IsTrue, IfSome};
ghost use Rattle.wc_leb128.specs.Writing.Bytes.{unsigned_bytes};
ghost use Rattle.wc_body.specs.Standard.ValueBytes.{Fits32};
ghost use Rattle.wc_body.specs.Drafting.AtFront.{AreLast, AreLastOf32, IsSplit, IsLongSplit};

/// The unsigned integer that the bytes begin with, where it has one byte or two, and no more than it needs; and what
/// follows it.
#[inline(always)]
pub(crate) fn unsigned_front(bytes: &[u8]) -> Option<(u32, &[u8])>
    ensures { IfSome result (λ f. (bytes.now ≡ unsigned_bytes f.0 ++ f.1.now) × Fits32 f.0) }
{
    let (first, rest) = bytes.split_first()?;
    if *first < 128 {
        return Some((u32::from(*first), rest));
    }
    let (second, rest) = rest.split_first()?;
    if *second == 0 || *second >= 128 {
        return None;
    }
    Some((u32::from(*first - 128) + 128 * u32::from(*second), rest))
}

/// What follows the signed integer of 32 bits that the bytes begin with, where it has no more bytes than it needs.
#[inline(always)]
pub(crate) fn behind_i32(bytes: &[u8]) -> Option<&[u8]>
    ensures { IfSome result (λ rest. IsSplit bytes.now rest.now) }
{
    let (first, rest) = bytes.split_first()?;
    if *first < 128 {
        return Some(rest);
    }
    behind_long_i32(*first, rest)
}

/// The same of one of two bytes or more, the first of which was taken.
#[inline(never)]
fn behind_long_i32(first: u8, bytes: &[u8]) -> Option<&[u8]>
    requires { 128 ≤ first }
    ensures { IfSome result (λ rest. IsSplit (first ∷ bytes.now) rest.now) }
{
    let (second, rest) = bytes.split_first()?;
    if *second < 128 {
        return behind_last(first, *second, rest);
    }
    let (third, rest) = rest.split_first()?;
    if *third < 128 {
        return behind_last(*second, *third, rest);
    }
    let (fourth, rest) = rest.split_first()?;
    if *fourth < 128 {
        return behind_last(*third, *fourth, rest);
    }
    let (fifth, rest) = rest.split_first()?;
    behind_last_of_32(*fourth, *fifth, rest)
}

/// What follows the last two bytes of a signed integer of 32 bits that has five bytes, where the last one is wanted.
#[inline(always)]
fn behind_last_of_32(last_but_one: u8, last: u8, rest: &[u8]) -> Option<&[u8]>
    requires { 128 ≤ last_but_one }
    ensures { IfSome result (λ left. (left.now ≡ rest.now) × AreLastOf32 last_but_one last) }
{
    if are_last_of_32(last_but_one, last) {
        Some(rest)
    } else {
        None
    }
}

/// What follows the signed integer of 64 bits that the bytes begin with, where it has at most nine bytes, and no more
/// than it needs.
#[inline(always)]
pub(crate) fn behind_i64(bytes: &[u8]) -> Option<&[u8]>
    ensures { IfSome result (λ rest. IsLongSplit bytes.now rest.now) }
{
    let (first, rest) = bytes.split_first()?;
    if *first < 128 {
        return Some(rest);
    }
    behind_long_i64(*first, rest)
}

/// The same of one of two bytes or more, the first of which was taken.
#[inline(never)]
fn behind_long_i64(first: u8, bytes: &[u8]) -> Option<&[u8]>
    requires { 128 ≤ first }
    ensures { IfSome result (λ rest. IsLongSplit (first ∷ bytes.now) rest.now) }
{
    let mut last = first;
    let mut rest = bytes;
    let mut count = 0u8;
    'bytes: while count < 8 {
        let (byte, behind) = rest.split_first()?;
        if *byte < 128 {
            return behind_last(last, *byte, behind);
        }
        last = *byte;
        rest = behind;
        count += 1;
    }
    None
}

/// What follows the last two bytes of a signed integer, where the last one is wanted.
#[inline(always)]
fn behind_last(last_but_one: u8, last: u8, rest: &[u8]) -> Option<&[u8]>
    requires { 128 ≤ last_but_one }
    ensures { IfSome result (λ left. (left.now ≡ rest.now) × AreLast last_but_one last) }
{
    if are_last(last_but_one, last) {
        Some(rest)
    } else {
        None
    }
}

/// Whether the bytes spell a signed integer together that one byte can't.
#[inline(always)]
pub(crate) fn are_last(first: u8, second: u8) -> bool
    requires { 128 ≤ first }
    ensures { IsTrue result → AreLast first second }
{
    if second < 64 {
        return u16::from(first - 128) + 128 * u16::from(second) >= 64;
    }
    second < 128 && u16::from(255 - first) + 128 * u16::from(127 - second) >= 64
}

/// Whether the bytes are the last two of a signed integer of 32 bits that has five bytes, and needs them.
#[inline(always)]
fn are_last_of_32(first: u8, second: u8) -> bool
    requires { 128 ≤ first }
    ensures { IsTrue result → AreLastOf32 first second }
{
    if second < 8 {
        let bits = u16::from(first - 128) + 128 * u16::from(second);
        return bits >= 64;
    }
    if second < 120 || second >= 128 {
        return false;
    }
    u16::from(255 - first) + 128 * u16::from(127 - second) >= 64
}

/// What follows the byte 0 that these bytes begin with.
#[inline(always)]
pub(crate) fn behind_zero(bytes: &[u8]) -> Option<&[u8]>
    ensures { IfSome result (λ rest. bytes.now ≡ 0 ∷ rest.now) }
{
    let (zero, rest) = bytes.split_first()?;
    if *zero != 0 {
        return None;
    }
    Some(rest)
}
