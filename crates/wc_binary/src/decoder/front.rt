//! What bytes at hand begin with, told before any of them is taken.

ghost use Rattle.std.specs.Prelude.{◌≡◌, IfSome, MatchOption};
ghost use Rattle.std.specs.Str.{IsUtf8};
ghost use Rattle.wc_binary.specs.Standard.Values.{u32 as u32_phrase, name as name_phrase};
ghost use Rattle.wc_binary.specs.Reading.NextItem.{BeginsWith};

/// The unsigned integer of 32 bits that these bytes begin with (Core 1.0, 5.2.2), of any length, and what follows it.
#[inline(never)]
fn long_u32_front(bytes: &[u8]) -> Option<(u32, &[u8])>
    ensures { IfSome result (λ found. BeginsWith u32_phrase bytes.now found.0 found.1.now) }
{
    wc_leb128::u32_front(bytes)
}

/// The same. Most have one byte, so that case comes first and is inlined.
#[inline(always)]
pub fn u32_front(bytes: &[u8]) -> Option<(u32, &[u8])>
    ensures { IfSome result (λ found. BeginsWith u32_phrase bytes.now found.0 found.1.now) }
{
    let (first, rest) = bytes.split_first()?;
    if *first >= 128 {
        return long_u32_front(bytes);
    }
    Some((u32::from(*first), rest))
}

/// The text that these bytes are, if they are UTF-8.
// Most names are ASCII, which is judged eight bytes at a time, so that is tried first.
#[inline(always)]
fn utf8_text(bytes: &[u8]) -> Option<&str>
    ensures { MatchOption result (¬ (IsUtf8 bytes.now)) (λ text. (text.now ≡ bytes.now) × IsUtf8 bytes.now) }
{
    if bytes.is_ascii() {
        return Some(unsafe { str::from_utf8_unchecked(bytes) });
    }
    str::from_utf8(bytes).ok()
}

/// The name that these bytes begin with (Core 1.0, 5.2.4), and what follows it.
#[inline(always)]
pub fn name_front(bytes: &[u8]) -> Option<(&str, &[u8])>
    ensures { IfSome result (λ found. BeginsWith name_phrase bytes.now found.0.now found.1.now) }
{
    let (count, behind) = u32_front(bytes)?;
    let count = count as usize;
    if count > behind.len() {
        return None;
    }
    let (name, rest) = behind.split_at(count);
    let name = utf8_text(name)?;
    Some((name, rest))
}
