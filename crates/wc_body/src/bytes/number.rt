//! The integers that bytes begin with (Core 1.0, 5.2.2).

ghost use Rattle.std.specs.Prelude.{◌≡◌, IfSome, option_map};
ghost use Rattle.wc_leb128.specs.Standard.Shortest.{HoldsSigned};
ghost use Rattle.wc_body.specs.Reading.Fronts.{seen, unsigned_front, signed_front};

use wc_leb128::{signed_at, signed_front, signed_in_one, u32_front, unsigned_at, unsigned_in_one};

/// An unsigned integer of 32 bits, of any length.
#[inline(never)]
fn long_u32_at(bytes: &[u8]) -> Option<(u32, &[u8])>
    ensures { option_map seen result ≡ unsigned_front 32 bytes.now }
{
    let (n, rest) = unsigned_at::<32>(bytes)?;
    Some((n as u32, rest))
}

/// An unsigned integer of 32 bits. Most have one byte, so that case comes first and is inlined.
#[inline(always)]
pub(crate) fn u32_at(bytes: &[u8]) -> Option<(u32, &[u8])>
    ensures { option_map seen result ≡ unsigned_front 32 bytes.now }
{
    let (first, rest) = bytes.split_first()?;
    match unsigned_in_one(*first) {
        Some(n) => Some((u32::from(n), rest)),
        None => long_u32_at(bytes),
    }
}

/// The same with no call, where most have two bytes or more.
#[inline(always)]
pub(crate) fn u32_in_place(bytes: &[u8]) -> Option<(u32, &[u8])>
    ensures { option_map seen result ≡ unsigned_front 32 bytes.now }
{
    u32_front(bytes)
}

/// A signed integer of 32 bits with no call, where most have two bytes or more.
#[inline(always)]
pub(crate) fn i32_in_place(bytes: &[u8]) -> Option<(i32, &[u8])>
    ensures { option_map seen result ≡ signed_front 32 bytes.now }
{
    let (n, rest) = signed_front::<32>(bytes)?;
    Some((n as i32, rest))
}

/// The same by a call.
#[inline(never)]
fn long_i32_at(bytes: &[u8]) -> Option<(i32, &[u8])>
    ensures { option_map seen result ≡ signed_front 32 bytes.now }
{
    i32_in_place(bytes)
}

/// A signed integer of 64 bits with no call, where most have two bytes or more.
#[inline(always)]
pub(crate) fn i64_in_place(bytes: &[u8]) -> Option<(i64, &[u8])>
    ensures { option_map seen result ≡ signed_front 64 bytes.now }
{
    signed_front::<64>(bytes)
}

/// The same by a call.
#[inline(never)]
fn long_i64_at(bytes: &[u8]) -> Option<(i64, &[u8])>
    ensures { option_map seen result ≡ signed_front 64 bytes.now }
{
    i64_in_place(bytes)
}

/// A signed integer of 32 bits. Most have one byte, so that case comes first and is inlined.
#[inline(always)]
pub(crate) fn i32_at(bytes: &[u8]) -> Option<(i32, &[u8])>
    ensures { option_map seen result ≡ signed_front 32 bytes.now }
{
    let (first, rest) = bytes.split_first()?;
    match signed_in_one(*first) {
        Some(n) => Some((i32::from(n), rest)),
        None => long_i32_at(bytes),
    }
}

/// A signed integer of 64 bits. Most have one byte, so that case comes first and is inlined.
#[inline(always)]
pub(crate) fn i64_at(bytes: &[u8]) -> Option<(i64, &[u8])>
    ensures { option_map seen result ≡ signed_front 64 bytes.now }
{
    let (first, rest) = bytes.split_first()?;
    match signed_in_one(*first) {
        Some(n) => Some((i64::from(n), rest)),
        None => long_i64_at(bytes),
    }
}

/// A signed integer of 33 bits.
pub(crate) fn i33_at(bytes: &[u8]) -> Option<(i64, &[u8])>
    ensures found { option_map seen result ≡ signed_front 33 bytes.now }
    ensures holds { IfSome result (λ f. HoldsSigned 33 f.0) }
{
    signed_at::<33>(bytes)
}
