//! Element segments.

ghost use Rattle.std.specs.Prelude.{◌≡◌, ◌++◌, List, IfOk, OnOk};
ghost use Rattle.wc_spaces.specs.Standard.Least.{least_from};
ghost use Rattle.wc_surface.specs.declared.field.Field.{Field as FieldValue};
ghost use Rattle.wc_declare.specs.Kept.Declaring.{IsDeclared};
ghost use Rattle.wc_resolve.specs.Standard.Segments.{inline_elems, inline_elem_faults, field_elems};
ghost use Rattle.wc_resolve.specs.Standard.Segments.{written_elem as elem_of, written_elem_faults, elem_faults};

use crate::counts::Counts;
use crate::indices::{resolve_indices, resolve_optional};
use crate::offset::zero_offset;
use std::alloc::{AllocError, Global};
use wc_ast::{Elem, List as AstList};
use wc_declare::Declared;
use wc_resolve_code::NameWhy;
use wc_resolve_func::resolve_constant;
use wc_spaces::Noted;
use wc_surface::{ElemField, Field, TableDesc};

/// Adds the elements that stand inside the table of this index.
fn put_inline(
    alloc: Global,
    out: &mut AstList<Elem>,
    declared: &Declared<'_>,
    index: u32,
    desc: &TableDesc<'_>,
    noted: &mut Noted<NameWhy>,
) -> Result<(), AllocError>
    ensures elems { (all : List FieldValue) → IsDeclared all declared.now
        → OnOk result (out.new ≡ out.old ++ inline_elems all index desc.now) }
    ensures noted { (all : List FieldValue) → IsDeclared all declared.now
        → OnOk result (noted.new.first ≡ least_from noted.old.first (inline_elem_faults all desc.now)) }
{
    match desc {
        TableDesc::Import(_, _) | TableDesc::Limits(_) => Ok(()),
        TableDesc::Elems(funcs) => {
            let funcs = resolve_indices(alloc, &declared.spaces.funcs, funcs.as_slice(), noted)?;
            let offset = zero_offset(alloc)?;
            out.push(Elem {
                table: index,
                offset,
                funcs,
            })?;
            Ok(())
        }
    }
}

/// The element segment that is written.
fn written_elem<'a>(
    alloc: Global,
    declared: &Declared<'a>,
    elem: &'a ElemField<'_>,
    noted: &mut Noted<NameWhy>,
) -> Result<Elem, AllocError>
    ensures elem { (all : List FieldValue) → IsDeclared all declared.now
        → IfOk result (λ found. found ≡ elem_of all elem.now) }
    ensures noted { (all : List FieldValue) → IsDeclared all declared.now
        → OnOk result (noted.new.first ≡ least_from noted.old.first (written_elem_faults all elem.now)) }
{
    let table = resolve_optional(&declared.spaces.tables, elem.table.get(), noted);
    let offset = resolve_constant(alloc, declared, &elem.offset, noted)?;
    let funcs = resolve_indices(alloc, &declared.spaces.funcs, elem.funcs.as_slice(), noted)?;
    Ok(Elem {
        table,
        offset,
        funcs,
    })
}

/// Adds the element segment of a field. What is wrong with its names is noted.
pub(crate) fn put_field<'a>(
    alloc: Global,
    out: &mut AstList<Elem>,
    declared: &Declared<'a>,
    counts: Counts,
    field: &'a Field<'_>,
    noted: &mut Noted<NameWhy>,
) -> Result<(), AllocError>
    ensures elems { (all : List FieldValue) → IsDeclared all declared.now
        → OnOk result (out.new ≡ out.old ++ field_elems all counts field.now) }
    ensures noted { (all : List FieldValue) → IsDeclared all declared.now
        → OnOk result (noted.new.first ≡ least_from noted.old.first (elem_faults all field.now)) }
{
    match field {
        Field::Table(table) => put_inline(alloc, out, declared, counts.tables, &table.desc, noted),
        Field::Elem(elem) => {
            let found = written_elem(alloc, declared, elem, noted)?;
            out.push(found)?;
            Ok(())
        }
        _ => Ok(()),
    }
}
