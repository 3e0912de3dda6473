//! Globals.

ghost use Rattle.std.specs.Prelude.{◌≡◌, ◌++◌, List, OnOk};
ghost use Rattle.wc_spaces.specs.Standard.Least.{least_from};
ghost use Rattle.wc_surface.specs.declared.field.Field.{Field as FieldValue};
ghost use Rattle.wc_declare.specs.Kept.Declaring.{IsDeclared};
ghost use Rattle.wc_resolve.specs.Standard.Globals.{global_of, init_faults, field_globals, global_faults};

use std::alloc::{self, AllocError};
use wc_ast::{Global, GlobalType, List as AstList};
use wc_declare::Declared;
use wc_resolve_code::NameWhy;
use wc_resolve_func::resolve_constant;
use wc_spaces::Noted;
use wc_surface::{Field, GlobalDesc};

fn put_global<'a>(
    alloc: alloc::Global,
    out: &mut AstList<Global>,
    declared: &Declared<'a>,
    ty: GlobalType,
    desc: &'a GlobalDesc<'_>,
    noted: &mut Noted<NameWhy>,
) -> Result<(), AllocError>
    ensures globals { (all : List FieldValue) → IsDeclared all declared.now
        → OnOk result (out.new ≡ out.old ++ global_of all ty desc.now) }
    ensures noted { (all : List FieldValue) → IsDeclared all declared.now
        → OnOk result (noted.new.first ≡ least_from noted.old.first (init_faults all desc.now)) }
{
    match desc {
        GlobalDesc::Import(_) => Ok(()),
        GlobalDesc::Init(body) => {
            let init = resolve_constant(alloc, declared, body, noted)?;
            out.push(Global { ty, init })?;
            Ok(())
        }
    }
}

/// Adds the global that a field defines. What is wrong with the names in its first value is noted.
pub(crate) fn put_field<'a>(
    alloc: alloc::Global,
    out: &mut AstList<Global>,
    declared: &Declared<'a>,
    field: &'a Field<'_>,
    noted: &mut Noted<NameWhy>,
) -> Result<(), AllocError>
    ensures globals { (all : List FieldValue) → IsDeclared all declared.now
        → OnOk result (out.new ≡ out.old ++ field_globals all field.now) }
    ensures noted { (all : List FieldValue) → IsDeclared all declared.now
        → OnOk result (noted.new.first ≡ least_from noted.old.first (global_faults all field.now)) }
{
    match field {
        Field::Global(global) => put_global(alloc, out, declared, global.ty, &global.desc, noted),
        _ => Ok(()),
    }
}
