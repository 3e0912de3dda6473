//! What the rules look up.

ghost use Rattle.std.specs.Prelude.{◌≡◌, ◌+◌, ◌++◌, ◌≤◌, length, map, IfOk, OnOk};
ghost use Rattle.wc_check.specs.Standard.Spaces.{module_context};
ghost use Rattle.wc_check.specs.Judging.Imports.{IsImported};

use std::alloc::{self, AllocError};
use wc_ast::{Desc, Global, GlobalType, Imports, Limits, List, Module};

/// The sizes of a module's index spaces, and what its globals are (Core 1.0, 3.1.1).
#[derive(Drop)]
pub(crate) struct Context {
    /// How many function types there are.
    pub(crate) types: usize,
    /// How many functions there are, imports counted.
    pub(crate) funcs: usize,
    /// How many tables there are, imports counted.
    pub(crate) tables: usize,
    /// How many memories there are, imports counted.
    pub(crate) mems: usize,
    /// The type of each global, imports first.
    pub(crate) globals: List<GlobalType>,
}

/// How much is imported into each index space.
#[derive(Drop)]
pub(crate) struct Imported {
    pub(crate) funcs: usize,
    pub(crate) tables: usize,
    pub(crate) mems: usize,
    /// The type of each global that is imported.
    pub(crate) globals: Vec<GlobalType>,
}

/// What the rules look up in the module. The error is want of memory, for the types of the globals.
pub(crate) fn context_of(alloc: alloc::Global, module: &Module) -> Result<Context, AllocError>
    ensures { IfOk result (λ found. found ≡ module_context «module».now) }
{
    let imports = &module.imports;
    let Imported {
        funcs,
        tables,
        mems,
        mut globals,
    } = count_imports(alloc, imports)?;
    add_globals(&mut globals, module.globals.as_slice())?;
    Ok(Context {
        types: module.types.len(),
        funcs: func_count(imports, funcs, module.funcs.types()),
        tables: limits_count(imports, tables, module.tables.as_slice()),
        mems: limits_count(imports, mems, module.mems.as_slice()),
        globals: List::from_vec(globals),
    })
}

/// How many functions there are, where so many are imported and those that the module defines have these types.
fn func_count(imports: &Imports, imported: usize, types: &[u32]) -> usize
    requires { imported ≤ length imports.now }
    ensures { result ≡ imported + length types.now }
{
    // As many as lie in memory, so the sum has room.
    let _ = imports.descs();
    imported + types.len()
}

/// How many tables or memories there are, where so many are imported.
fn limits_count(imports: &Imports, imported: usize, limits: &[Limits]) -> usize
    requires { imported ≤ length imports.now }
    ensures { result ≡ imported + length limits.now }
{
    let _ = imports.descs();
    imported + limits.len()
}

fn count_imports(alloc: alloc::Global, imports: &Imports) -> Result<Imported, AllocError>
    ensures { IfOk result (IsImported imports.now) }
{
    // All of them can be counted, so no count overflows.
    let _ = imports.len();
    let mut funcs: usize = 0;
    let mut tables: usize = 0;
    let mut mems: usize = 0;
    let mut globals = Vec::new(alloc);
    for import in imports.iter() {
        match import.desc() {
            Desc::Func(_) => funcs += 1,
            Desc::Table(_) => tables += 1,
            Desc::Memory(_) => mems += 1,
            Desc::Global(ty) => globals.push(ty)?,
        }
    }
    Ok(Imported {
        funcs,
        tables,
        mems,
        globals,
    })
}

/// Adds the types of the globals at the end.
fn add_globals(types: &mut Vec<GlobalType>, globals: &[Global]) -> Result<(), AllocError>
    ensures { OnOk result (types.new.items ≡ types.old.items ++ map (λ g. g.ty) globals.now) }
{
    for global in globals {
        types.push(global.ty)?;
    }
    Ok(())
}
