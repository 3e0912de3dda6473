//! Data segments.

ghost use Rattle.std.specs.Prelude.{◌≡◌, ◌++◌, List, IfOk, OnOk};
ghost use Rattle.wc_spaces.specs.Standard.Least.{least_from};
ghost use Rattle.wc_surface.specs.declared.field.Field.{Field as FieldValue};
ghost use Rattle.wc_declare.specs.Kept.Declaring.{IsDeclared};
ghost use Rattle.wc_resolve.specs.Standard.Segments.{inline_datas, field_datas};
ghost use Rattle.wc_resolve.specs.Standard.Segments.{written_data as data_of, written_data_faults, data_faults};

use crate::counts::Counts;
use crate::indices::resolve_optional;
use crate::offset::zero_offset;
use std::alloc::{AllocError, Global};
use wc_ast::{Data, List as AstList};
use wc_declare::Declared;
use wc_resolve_code::NameWhy;
use wc_resolve_func::resolve_constant;
use wc_spaces::Noted;
use wc_surface::{DataField, Field, MemoryDesc};

/// Adds the bytes that stand inside the memory of this index.
fn put_inline(
    alloc: Global,
    out: &mut AstList<Data>,
    index: u32,
    desc: &MemoryDesc<'_>,
) -> Result<(), AllocError>
    ensures { OnOk result (out.new ≡ out.old ++ inline_datas index desc.now) }
{
    match desc {
        MemoryDesc::Import(_, _) | MemoryDesc::Limits(_) => Ok(()),
        MemoryDesc::Bytes(bytes) => {
            let bytes = bytes.try_copy()?;
            let offset = zero_offset(alloc)?;
            out.push(Data {
                memory: index,
                offset,
                bytes,
            })?;
            Ok(())
        }
    }
}

/// The data segment that is written.
fn written_data<'a>(
    alloc: Global,
    declared: &Declared<'a>,
    segment: &'a DataField<'_>,
    noted: &mut Noted<NameWhy>,
) -> Result<Data, AllocError>
    ensures segment { (all : List FieldValue) → IsDeclared all declared.now
        → IfOk result (λ found. found ≡ data_of all segment.now) }
    ensures noted { (all : List FieldValue) → IsDeclared all declared.now
        → OnOk result (noted.new.first ≡ least_from noted.old.first (written_data_faults all segment.now)) }
{
    let memory = resolve_optional(&declared.spaces.memories, segment.memory.get(), noted);
    let offset = resolve_constant(alloc, declared, &segment.offset, noted)?;
    let bytes = segment.bytes.try_copy()?;
    Ok(Data {
        memory,
        offset,
        bytes,
    })
}

/// Adds the data segment of a field. What is wrong with its names is noted.
pub(crate) fn put_field<'a>(
    alloc: Global,
    out: &mut AstList<Data>,
    declared: &Declared<'a>,
    counts: Counts,
    field: &'a Field<'_>,
    noted: &mut Noted<NameWhy>,
) -> Result<(), AllocError>
    ensures datas { (all : List FieldValue) → IsDeclared all declared.now
        → OnOk result (out.new ≡ out.old ++ field_datas all counts field.now) }
    ensures noted { (all : List FieldValue) → IsDeclared all declared.now
        → OnOk result (noted.new.first ≡ least_from noted.old.first (data_faults all field.now)) }
{
    match field {
        Field::Memory(memory) => put_inline(alloc, out, counts.memories, &memory.desc),
        Field::Data(segment) => {
            let found = written_data(alloc, declared, segment, noted)?;
            out.push(found)?;
            Ok(())
        }
        _ => Ok(()),
    }
}
