//! What has canonical bytes. Nothing is laid out to be counted: the number of bytes is told first, and then the bytes
//! are written once, where they stand in the module.

ghost use Rattle.std.specs.Prelude.{ℕ, List as Seq, length};
ghost use Rattle.wc_body.specs.Standard.ValueBytes.{vector_bytes, FitsVector};
ghost use Rattle.wc_binary.specs.Writing.Writes.{Writes, Measures};

use crate::encoder::value::{length_size, write_length};
use crate::fault::EncFault;

/// What has canonical bytes, unless a count or a size in it reaches `2^32`.
pub trait Measured: Sized {
    ghost bytes: { Self → Seq ℕ };

    ghost Fits: { Self → Type 0 };

    /// How many bytes it takes. It takes no memory to tell.
    fn size(&self) -> Option<usize>
        ensures { Measures (Fits self.now) (length (bytes self.now)) result };

    /// Writes its bytes.
    fn write(&self, out: &mut Vec<u8>) -> Result<(), EncFault>
        ensures { Writes (Fits self.now) out.old.items out.new.items (bytes self.now) result };
}

/// How many bytes the count and the items take.
pub fn vector_size<M: Measured>(items: &[M]) -> Option<usize>
    ensures { Measures (FitsVector M.Fits items.now) (length (vector_bytes M.bytes items.now)) result }
{
    let count = length_size(items.len())?;
    let mut size = count;
    for item in items {
        size = size.saturating_add(item.size()?);
    }
    Some(size)
}

/// Writes the count and the items.
pub fn write_vector<M: Measured>(out: &mut Vec<u8>, items: &[M]) -> Result<(), EncFault>
    ensures { Writes (FitsVector M.Fits items.now) out.old.items out.new.items (vector_bytes M.bytes items.now) result }
{
    write_length(out, items.len())?;
    for item in items {
        item.write(out)?;
    }
    Ok(())
}
