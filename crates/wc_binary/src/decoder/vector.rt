//! Vectors (Core 1.0, 5.1.3).

ghost use Rattle.std.specs.Prelude.{◌≡◌, ℕ, IfOk, List as Seq, length};
ghost use Rattle.wc_binary.specs.Standard.Values.{any_byte, times as times_phrase, vector as vector_phrase};
ghost use Rattle.wc_binary.specs.Reading.Source.{Gives};

use crate::decoder::byte::any_byte;
use crate::decoder::from_source::FromSource;
use crate::decoder::integer::u32;
use crate::fault::BinFault;
use crate::source::Source;
use std::alloc::Global;
use wc_ast::List;
use wc_device::BUFFER_SIZE;

/// So many values. The list grows with the values that were read, and not by the count.
pub fn times<V: FromSource + Drop, S: Source>(
    alloc: Global,
    count: u32,
    source: &mut S,
) -> Result<List<V>, BinFault>
    ensures gives { Gives (times_phrase count V.phrase) (S.input source.old) (S.input source.new) result }
    ensures counted { IfOk result (λ values. length values ≡ count) }
{
    let mut values = List::new(alloc);
    for _ in 0..count {
        values.push(V::read(alloc, source)?)?;
    }
    Ok(values)
}

/// So many bytes, of which those at hand are taken at once. Room is made for 4 KiB at most; beyond these the list grows
/// with the bytes that were read, and not by the count.
pub fn bytes<S: Source>(alloc: Global, count: u32, source: &mut S) -> Result<List<u8>, BinFault>
    ensures gives { Gives (times_phrase count any_byte) (S.input source.old) (S.input source.new) result }
    ensures counted { IfOk result (λ bytes. length bytes ≡ count) }
{
    let count = count as usize;
    let mut bytes = Vec::with_capacity(alloc, count.min(BUFFER_SIZE))?;
    while bytes.len() < count {
        let byte = any_byte(source)?;
        bytes.push(byte)?;
        source.take(count - bytes.len(), &mut bytes)?;
    }
    Ok(List::from_vec(bytes))
}

impl<V: FromSource + Drop> FromSource for List<V> {
    ghost phrase = { vector_phrase V.phrase };

    #[tactic(auto, unfolding(crate::specs::Standard::Values::vector))]
    fn read<S: Source>(alloc: Global, source: &mut S) -> Result<List<V>, BinFault> {
        let count = u32(source)?;
        times(alloc, count, source)
    }
}

/// A count and so many bytes.
#[tactic(auto, unfolding(crate::specs::Standard::Values::vector))]
pub fn byte_vector<S: Source>(alloc: Global, source: &mut S) -> Result<List<u8>, BinFault>
    ensures { Gives (vector_phrase any_byte) (S.input source.old) (S.input source.new) result }
{
    let count = u32(source)?;
    bytes(alloc, count, source)
}
