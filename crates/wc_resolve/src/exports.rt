//! Exports.

ghost use Rattle.std.specs.Prelude.{◌≡◌, ◌++◌, List, OnOk};
ghost use Rattle.wc_spaces.specs.Standard.Least.{least_from};
ghost use Rattle.wc_surface.specs.declared.field.Field.{Field as FieldValue};
ghost use Rattle.wc_declare.specs.Kept.Declaring.{AreSpaces};
ghost use Rattle.wc_resolve.specs.Standard.Exports.{exported_as, field_exports, export_faults};

use crate::counts::Counts;
use crate::indices::{resolve_index, space_of};
use std::alloc::AllocError;
use wc_ast::{ExportKind, Exports};
use wc_declare::declared::Spaces;
use wc_resolve_code::NameWhy;
use wc_spaces::Noted;
use wc_surface::{Field, TextName};

/// Exports the same under each of these names.
fn put_names(
    out: &mut Exports,
    kind: ExportKind,
    index: u32,
    names: &[TextName<'_>],
) -> Result<(), AllocError>
    ensures { OnOk result (out.new ≡ out.old ++ exported_as kind index names.now) }
{
    for name in names {
        out.push(name.as_str(), kind, index)?;
    }
    Ok(())
}

/// Adds the exports of a field. An identifier that nothing has is noted.
pub(crate) fn put_field(
    out: &mut Exports,
    spaces: &Spaces<'_>,
    counts: Counts,
    field: &Field<'_>,
    noted: &mut Noted<NameWhy>,
) -> Result<(), AllocError>
    ensures exports { (all : List FieldValue) → AreSpaces all spaces.now
        → OnOk result (out.new ≡ out.old ++ field_exports all counts field.now) }
    ensures noted { (all : List FieldValue) → AreSpaces all spaces.now
        → OnOk result (noted.new.first ≡ least_from noted.old.first (export_faults all field.now)) }
{
    match field {
        Field::Func(func) => put_names(out, ExportKind::Func, counts.funcs, func.exports()),
        Field::Table(table) => put_names(
            out,
            ExportKind::Table,
            counts.tables,
            table.exports.as_slice(),
        ),
        Field::Memory(memory) => put_names(
            out,
            ExportKind::Memory,
            counts.memories,
            memory.exports.as_slice(),
        ),
        Field::Global(global) => put_names(
            out,
            ExportKind::Global,
            counts.globals,
            global.exports.as_slice(),
        ),
        Field::Export(export) => {
            let index = resolve_index(space_of(spaces, export.kind), &export.index, noted);
            out.push(export.name.as_str(), export.kind, index)
        }
        _ => Ok(()),
    }
}
