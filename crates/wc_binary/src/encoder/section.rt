//! Sections (Core 1.0, 5.5.2). One that would hold nothing is left out.

ghost use Rattle.std.specs.Prelude.{ℕ, ◌+◌, ◌<◌, ◌^◌, ◌∷◌, ◌++◌, [], length as count_of};
ghost use Rattle.wc_leb128.specs.Writing.Bytes.{unsigned_bytes};
ghost use Rattle.wc_binary.specs.Writing.Values.{section_bytes, FitsSection};
ghost use Rattle.wc_binary.specs.Standard.Sections.{section_id};
ghost use Rattle.wc_binary.specs.Writing.Writes.{Writes, MeasuresWithin, section_limit};

use crate::encoder::measured::{Measured, vector_size, write_vector};
use crate::encoder::value::{length_size, write_length};
use crate::fault::EncFault;
use crate::section::SectionKind;

/// How many bytes a section takes whose content takes so many: also its id and its size.
#[inline]
pub fn headed_size(content: usize) -> Option<usize>
    ensures { MeasuresWithin section_limit (content < 2 ^ 32)
        (1 + (count_of (unsigned_bytes content) + content)) result }
{
    let size = length_size(content)?;
    Some(1 + size + content)
}

/// Writes what stands before the content of a section: its id, and how many bytes the content takes. Room is made for
/// these.
pub fn write_head(out: &mut Vec<u8>, kind: SectionKind, content: usize) -> Result<(), EncFault>
    ensures { Writes (content < 2 ^ 32) out.old.items out.new.items
        ((section_id kind ∷ []) ++ unsigned_bytes content) result }
{
    out.push(kind.id())?;
    write_length(out, content)?;
    out.reserve(content)?;
    Ok(())
}

/// How many bytes a section of these items takes, whatever its id.
pub fn section_size<M: Measured>(items: &[M]) -> Option<usize>
    ensures { (id : ℕ) → MeasuresWithin section_limit (FitsSection M.bytes M.Fits items.now)
        (count_of (section_bytes id M.bytes items.now)) result }
{
    if items.is_empty() {
        return Some(0);
    }
    headed_size(vector_size(items)?)
}

/// Writes a section of these items.
pub fn write_section<M: Measured>(
    out: &mut Vec<u8>,
    kind: SectionKind,
    items: &[M],
) -> Result<(), EncFault>
    ensures { Writes (FitsSection M.bytes M.Fits items.now) out.old.items out.new.items
        (section_bytes (section_id kind) M.bytes items.now) result }
{
    if items.is_empty() {
        return Ok(());
    }
    let Some(size) = vector_size(items) else {
        return Err(EncFault::Oversize);
    };
    write_head(out, kind, size)?;
    write_vector(out, items)
}
