//! Imports.

ghost use Rattle.std.specs.Prelude.{◌≡◌, [], ◌∷◌, ◌++◌, List, OnOk};
ghost use Rattle.wc_surface.specs.declared.field.Field.{Field as FieldValue};
ghost use Rattle.wc_declare.specs.Kept.Declaring.{IsDeclared};
ghost use Rattle.wc_resolve.specs.Standard.Imports.{import, desc_of as brought, func_imports, table_imports};
ghost use Rattle.wc_resolve.specs.Standard.Imports.{memory_imports, global_imports, field_imports};

use std::alloc::AllocError;
use wc_ast::{Desc, GlobalType, Imports};
use wc_declare::Declared;
use wc_surface::{
    Field, FuncSeen, GlobalDesc, ImportDesc, ImportField, ImportNames, KeptFunc, MemoryDesc,
    TableDesc, UseRef,
};

/// Adds an import.
fn put(out: &mut Imports, names: &ImportNames<'_>, desc: Desc) -> Result<(), AllocError>
    ensures { OnOk result (out.new ≡ out.old ++ import names.now desc ∷ []) }
{
    out.push(names.module.as_str(), names.item.as_str(), desc)
}

/// What an import brings.
fn desc_of<'a>(declared: &Declared<'_>, desc: &'a ImportDesc<'_>) -> Desc
    ensures { (all : List FieldValue) → IsDeclared all declared.now → result ≡ brought all desc.now }
{
    match desc {
        ImportDesc::Func(used) => Desc::Func(declared.type_index(&UseRef::of(used))),
        ImportDesc::Table(limits) => Desc::Table(*limits),
        ImportDesc::Memory(limits) => Desc::Memory(*limits),
        ImportDesc::Global(ty) => Desc::Global(*ty),
    }
}

fn put_import<'a>(
    out: &mut Imports,
    declared: &Declared<'_>,
    found: &'a ImportField<'_>,
) -> Result<(), AllocError>
    ensures { (all : List FieldValue) → IsDeclared all declared.now
        → OnOk result (out.new ≡ out.old ++ import found.now.names (brought all found.now.desc) ∷ []) }
{
    put(out, &found.names, desc_of(declared, &found.desc))
}

fn put_func<'a>(
    out: &mut Imports,
    declared: &Declared<'_>,
    func: &'a KeptFunc<'_>,
) -> Result<(), AllocError>
    ensures { (all : List FieldValue) → IsDeclared all declared.now
        → OnOk result (out.new ≡ out.old ++ func_imports all func.now.ty func.now.desc) }
{
    match func.desc() {
        FuncSeen::Import(names) => put(out, names, Desc::Func(declared.type_index(&func.ty()))),
        FuncSeen::Code { .. } => Ok(()),
    }
}

fn put_table(out: &mut Imports, desc: &TableDesc<'_>) -> Result<(), AllocError>
    ensures { OnOk result (out.new ≡ out.old ++ table_imports desc.now) }
{
    match desc {
        TableDesc::Import(names, limits) => put(out, names.get(), Desc::Table(*limits)),
        TableDesc::Limits(_) | TableDesc::Elems(_) => Ok(()),
    }
}

fn put_memory(out: &mut Imports, desc: &MemoryDesc<'_>) -> Result<(), AllocError>
    ensures { OnOk result (out.new ≡ out.old ++ memory_imports desc.now) }
{
    match desc {
        MemoryDesc::Import(names, limits) => put(out, names.get(), Desc::Memory(*limits)),
        MemoryDesc::Limits(_) | MemoryDesc::Bytes(_) => Ok(()),
    }
}

fn put_global(out: &mut Imports, ty: GlobalType, desc: &GlobalDesc<'_>) -> Result<(), AllocError>
    ensures { OnOk result (out.new ≡ out.old ++ global_imports ty desc.now) }
{
    match desc {
        GlobalDesc::Import(names) => put(out, names.get(), Desc::Global(ty)),
        GlobalDesc::Init(_) => Ok(()),
    }
}

/// Adds the import of a field, where it is one.
pub(crate) fn put_field<'a>(
    out: &mut Imports,
    declared: &Declared<'_>,
    field: &'a Field<'_>,
) -> Result<(), AllocError>
    ensures { (all : List FieldValue) → IsDeclared all declared.now
        → OnOk result (out.new ≡ out.old ++ field_imports all field.now) }
{
    match field {
        Field::Import(import) => put_import(out, declared, import.get()),
        Field::Func(func) => put_func(out, declared, func),
        Field::Table(table) => put_table(out, &table.desc),
        Field::Memory(memory) => put_memory(out, &memory.desc),
        Field::Global(global) => put_global(out, global.ty, &global.desc),
        _ => Ok(()),
    }
}
