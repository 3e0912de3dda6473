//! Imports.

ghost use Rattle.std.specs.Prelude.{◌≡◌};
ghost use Rattle.wc_check.specs.Standard.Rules.{each, first};
ghost use Rattle.wc_check.specs.Judging.Verdicts.{verdict};
ghost use Rattle.wc_check.specs.Standard.SizeRules.{import_rules};
ghost use Rattle.wc_check.specs.Standard.Broken.{broken_import};

use crate::fault::{CheckFault, CheckWhy, Item, broken_if, judge};
use crate::sizes::{mem_rule, table_rule};
use wc_ast::{Desc, Module};

/// The first rule that an import breaks, where there are so many types, and so many tables and memories are imported
/// before it.
fn import_rule(types: usize, tables: usize, mems: usize, desc: Desc) -> Option<CheckWhy>
    ensures { result ≡ first (import_rules types tables mems desc) }
{
    match desc {
        Desc::Func(index) => broken_if(CheckWhy::TypeIndex, types <= index as usize),
        Desc::Table(limits) => table_rule(tables, limits),
        Desc::Memory(limits) => mem_rule(mems, limits),
        Desc::Global(_) => None,
    }
}

pub(crate) fn check_imports(module: &Module) -> Result<(), CheckFault>
    ensures { result ≡ verdict (each (broken_import «module».now) 0 «module».now.imports) }
{
    let types = module.types.len();
    // All of them can be counted, so no count overflows.
    let _ = module.imports.len();
    let mut place: usize = 0;
    let mut tables: usize = 0;
    let mut mems: usize = 0;
    for import in module.imports.iter() {
        let desc = import.desc();
        judge(Item::Import(place), import_rule(types, tables, mems, desc))?;
        place += 1;
        match desc {
            Desc::Table(_) => tables += 1,
            Desc::Memory(_) => mems += 1,
            Desc::Func(_) | Desc::Global(_) => {}
        }
    }
    Ok(())
}
