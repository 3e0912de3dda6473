//! What stands inside fields.

ghost use Rattle.std.specs.Prelude.{◌≡◌};
ghost use Rattle.std.specs.Option.{option_to_list};
ghost use Rattle.wc_surface.specs.Standard.WrittenLocals.{written_out, AreNumbered};
ghost use Rattle.wc_declare.specs.Standard.Types.{import_uses, own_uses, func_uses, global_uses, inner_uses};
ghost use Rattle.wc_declare.specs.Standard.Inner.{import_names, names_of, desc_locals, locals_of};

use wc_surface::{
    Field, FuncSeen, GlobalDesc, ImportDesc, KeptFunc, LocalGroup, ParamName, TypeUse, UseRef,
};

#[inline(always)]
fn import_use<'a>(desc: &'a ImportDesc<'_>) -> Option<UseRef<'a>>
    ensures { option_to_list result ≡ import_uses desc.now }
{
    match desc {
        ImportDesc::Func(used) => Some(UseRef::of(used)),
        ImportDesc::Table(_) | ImportDesc::Memory(_) | ImportDesc::Global(_) => None,
    }
}

/// The type use of a function, or of an import of one.
#[inline(always)]
pub(crate) fn own_use<'a>(field: &'a Field<'_>) -> Option<UseRef<'a>>
    ensures { option_to_list result ≡ own_uses field.now }
{
    match field {
        Field::Import(import) => import_use(&import.get().desc),
        Field::Func(func) => Some(func.ty()),
        _ => None,
    }
}

fn uses_of_func<'a>(func: &'a KeptFunc<'_>) -> &'a [TypeUse<'a>]
    ensures { result.now ≡ func_uses func.now.desc }
{
    match func.desc() {
        FuncSeen::Import(_) => &[],
        FuncSeen::Code { body, .. } => body.uses(),
    }
}

fn uses_of_global<'a>(desc: &'a GlobalDesc<'_>) -> &'a [TypeUse<'a>]
    ensures { result.now ≡ global_uses desc.now }
{
    match desc {
        GlobalDesc::Import(_) => &[],
        GlobalDesc::Init(body) => body.uses(),
    }
}

/// The type uses in a field's instructions.
pub(crate) fn uses_inside<'a>(field: &'a Field<'_>) -> &'a [TypeUse<'a>]
    ensures { result.now ≡ inner_uses field.now }
{
    match field {
        Field::Func(func) => uses_of_func(func),
        Field::Global(global) => uses_of_global(&global.desc),
        Field::Elem(elem) => elem.offset.uses(),
        Field::Data(data) => data.offset.uses(),
        _ => &[],
    }
}

fn names_in<'a>(used: &'a TypeUse<'_>) -> &'a [ParamName<'a>]
    ensures { result.now ≡ used.now.names }
{
    used.names.as_slice()
}

fn names_of_import<'a>(desc: &'a ImportDesc<'_>) -> &'a [ParamName<'a>]
    ensures { result.now ≡ import_names desc.now }
{
    match desc {
        ImportDesc::Func(used) => names_in(used),
        ImportDesc::Table(_) | ImportDesc::Memory(_) | ImportDesc::Global(_) => &[],
    }
}

/// The parameters with identifiers of a function, or of an import of one.
pub(crate) fn params_of<'a>(field: &'a Field<'_>) -> &'a [ParamName<'a>]
    ensures { result.now ≡ names_of field.now }
{
    match field {
        Field::Import(import) => names_of_import(&import.get().desc),
        Field::Func(func) => func.ty().names(),
        _ => &[],
    }
}

fn groups_of_func<'a>(func: &'a KeptFunc<'_>) -> &'a [LocalGroup<'a>]
    ensures written { written_out result.now ≡ desc_locals func.now.desc }
    ensures numbered { AreNumbered result.now }
{
    match func.desc() {
        FuncSeen::Import(_) => &[],
        FuncSeen::Code { locals, .. } => locals.groups(),
    }
}

/// The declared locals of a function.
pub(crate) fn groups_of<'a>(field: &'a Field<'_>) -> &'a [LocalGroup<'a>]
    ensures written { written_out result.now ≡ locals_of field.now }
    ensures numbered { AreNumbered result.now }
{
    match field {
        Field::Func(func) => groups_of_func(func),
        _ => &[],
    }
}
