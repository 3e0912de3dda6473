//! The list of types.

ghost use Rattle.std.specs.Prelude.{◌≡◌, ◌<◌, ◌≤◌, ◌+◌, ◌++◌, ◌^◌, List, length, map, sum_by, IfOk, OnOk};
ghost use Rattle.std.specs.Option.{option_to_list};
ghost use Rattle.wc_ast.specs.declared.func_type.FuncType.{FuncType};
ghost use Rattle.wc_spaces.specs.Kept.Types.{AreTypes, count_of};
ghost use Rattle.wc_surface.specs.Standard.Keys.{key_of};
ghost use Rattle.wc_surface.specs.Standard.Sizes.{field_size};
ghost use Rattle.wc_declare.specs.Standard.Types.{written_type, written_types, uses_of, with_use, with_uses, types_of};

use crate::parts::{own_use, uses_inside};
use std::alloc::AllocError;
use wc_spaces::Types;
use wc_surface::{Field, TypeUse, UseRef};

/// Adds the type that a field defines.
pub(crate) fn add_written<'a>(types: &mut Types<'a>, field: &'a Field<'_>) -> Result<(), AllocError>
    requires { count_of types.old < 2 ^ 32 }
    ensures types { (ts : List FuncType) → AreTypes (map key_of ts) types.old
        → OnOk result (AreTypes (map key_of (ts ++ written_type field.now)) types.new) }
    ensures count { OnOk result (count_of types.new ≤ count_of types.old + 1) }
{
    match field {
        Field::FuncType(ty) => types.add(ty.signature.key()),
        _ => Ok(()),
    }
}

/// Adds the type of a use without an index, unless it is in the list.
fn add_use<'a>(types: &mut Types<'a>, used: &UseRef<'a>) -> Result<(), AllocError>
    requires { count_of types.old < 2 ^ 32 }
    ensures types { (ts : List FuncType) → AreTypes (map key_of ts) types.old
        → OnOk result (AreTypes (map key_of (with_use ts used.now.index used.now.signature)) types.new) }
    ensures count { OnOk result (count_of types.new ≤ count_of types.old + 1) }
{
    match used.index() {
        Some(_) => Ok(()),
        None => {
            let _ = types.find_or_add(used.key())?;
            Ok(())
        }
    }
}

/// Adds the types of uses, one after another.
fn add_uses<'a>(types: &mut Types<'a>, uses: &'a [TypeUse<'a>]) -> Result<(), AllocError>
    requires { count_of types.old + length uses.now < 2 ^ 32 }
    ensures types { (ts : List FuncType) → AreTypes (map key_of ts) types.old
        → OnOk result (AreTypes (map key_of (with_uses ts uses.now)) types.new) }
    ensures count { OnOk result (count_of types.new ≤ count_of types.old + length uses.now) }
{
    for used in uses {
        add_use(types, &UseRef::of(used))?;
    }
    Ok(())
}

/// Adds the type of a use, where there is one.
#[inline(always)]
fn add_own<'a>(types: &mut Types<'a>, own: Option<UseRef<'a>>) -> Result<(), AllocError>
    requires { count_of types.old < 2 ^ 32 }
    ensures types { (ts : List FuncType) → AreTypes (map key_of ts) types.old
        → OnOk result (AreTypes (map key_of (with_uses ts (option_to_list own.entry))) types.new) }
    ensures count { OnOk result (count_of types.new ≤ count_of types.old + length (option_to_list own.entry)) }
{
    match own {
        Some(used) => add_use(types, &used),
        None => Ok(()),
    }
}

/// Adds the types of a field's uses.
fn add_inner<'a>(types: &mut Types<'a>, field: &'a Field<'_>) -> Result<(), AllocError>
    requires { count_of types.old + length (uses_of field.now) < 2 ^ 32 }
    ensures types { (ts : List FuncType) → AreTypes (map key_of ts) types.old
        → OnOk result (AreTypes (map key_of (with_uses ts (uses_of field.now))) types.new) }
    ensures count { OnOk result (count_of types.new ≤ count_of types.old + length (uses_of field.now)) }
{
    add_own(types, own_use(field))?;
    add_uses(types, uses_inside(field))
}

/// All types of a text, where these are the ones that its fields define. The error is want of memory.
pub(crate) fn final_types<'a>(
    types: Types<'a>,
    fields: &'a [Field<'_>],
) -> Result<Types<'a>, AllocError>
    requires sized { sum_by field_size fields.now < 2 ^ 32 }
    requires types { AreTypes (map key_of (written_types fields.now)) types }
    requires count { count_of types ≤ length fields.now }
    ensures { IfOk result (AreTypes (map key_of (types_of fields.now))) }
{
    let mut types = types;
    for field in fields {
        add_inner(&mut types, field)?;
    }
    Ok(types)
}
