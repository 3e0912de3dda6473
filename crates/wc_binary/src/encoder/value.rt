//! Integers and lengths by their shortest spellings (Core 1.0, 5.2.2).

ghost use Rattle.std.specs.Prelude.{◌≡◌, ◌++◌, ◌+◌, ◌<◌, ◌^◌, OnOk, length as count_of};
ghost use Rattle.wc_leb128.specs.Writing.Bytes.{unsigned_bytes};
ghost use Rattle.wc_binary.specs.Writing.Writes.{Writes, Measures, MeasuresWithin};

use crate::fault::EncFault;
use std::alloc::AllocError;
use wc_leb128::shortest_u;

/// Writes a number of several bytes.
#[inline(never)]
fn write_long(out: &mut Vec<u8>, n: u32) -> Result<(), AllocError>
    ensures { OnOk result (out.new.items ≡ out.old.items ++ unsigned_bytes n) }
{
    out.extend_from_slice(shortest_u(u64::from(n)).as_slice())
}

/// Writes a number. Most have one byte, so that case is written in place.
#[inline(always)]
pub fn write_u32(out: &mut Vec<u8>, n: u32) -> Result<(), AllocError>
    ensures { OnOk result (out.new.items ≡ out.old.items ++ unsigned_bytes n) }
{
    if n < 128 {
        out.push(n as u8)?;
        return Ok(());
    }
    write_long(out, n)
}

/// Writes a count of items or a size in bytes.
pub fn write_length(out: &mut Vec<u8>, length: usize) -> Result<(), EncFault>
    ensures { Writes (length < 2 ^ 32) out.old.items out.new.items (unsigned_bytes length) result }
{
    if length > u32::MAX as usize {
        return Err(EncFault::Oversize);
    }
    write_u32(out, length as u32)?;
    Ok(())
}

/// How many bytes a number takes that takes several.
#[inline(never)]
fn long_size(n: u32) -> usize
    ensures { result ≡ count_of (unsigned_bytes n) }
{
    shortest_u(u64::from(n)).as_slice().len()
}

/// How many bytes a number takes. Most take one, so that case is told in place.
#[inline(always)]
pub fn u32_size(n: u32) -> usize
    ensures { result ≡ count_of (unsigned_bytes n) }
{
    if n < 128 {
        return 1;
    }
    long_size(n)
}

/// How many bytes a count of items or a size in bytes takes.
#[inline(always)]
pub fn length_size(length: usize) -> Option<usize>
    ensures { MeasuresWithin 5 (length < 2 ^ 32) (count_of (unsigned_bytes length)) result }
{
    if length > u32::MAX as usize {
        return None;
    }
    Some(u32_size(length as u32))
}

/// How many bytes so many bytes take with their number before them.
#[inline(always)]
pub fn sized_size(length: usize) -> Option<usize>
    ensures { Measures (length < 2 ^ 32) (count_of (unsigned_bytes length) + length) result }
{
    let size = length_size(length)?;
    Some(size.saturating_add(length))
}
