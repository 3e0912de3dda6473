//! Exports.

ghost use Rattle.std.specs.Prelude.{◌≡◌, ◌||◌, ℕ, List, [], nat_le, OnOk, IfOk, IfErr};
ghost use Rattle.std.specs.Str.{bytes_eq};
ghost use Rattle.wc_check.specs.Standard.Rules.{IsFirstOf, each, first, rule};
ghost use Rattle.wc_check.specs.Judging.Names.{has_text, AreDistinct};
ghost use Rattle.wc_check.specs.Judging.Verdicts.{verdict};
ghost use Rattle.wc_check.specs.Standard.Spaces.{module_context};
ghost use Rattle.wc_check.specs.Standard.ExportRules.{space_size};
ghost use Rattle.wc_check.specs.Standard.Broken.{broken_export};
ghost use Rattle.wc_check.specs.declared.fault.CheckFault.TheVariants as faults;
ghost use Rattle.wc_check.specs.declared.fault.CheckWhy.TheVariants as whys;

use crate::context::Context;
use crate::fault::{CheckFault, CheckWhy, Item, broken_if, judge};
use crate::names::have_distinct_hashes;
use std::alloc::Global;
use std::collections::BTreeSet;
use wc_ast::{ExportKind, ExportRef, Module};

/// How many there are of what is exported.
fn size_of_space(context: &Context, kind: ExportKind) -> usize
    ensures { result ≡ space_size context.now kind }
{
    match kind {
        ExportKind::Func => context.funcs,
        ExportKind::Table => context.tables,
        ExportKind::Memory => context.mems,
        ExportKind::Global => context.globals.len(),
    }
}

/// Adds the name, and tells whether it was there before. The error is want of memory.
fn add_name<'a>(names: &mut BTreeSet<&'a str>, name: &'a str) -> Result<bool, CheckFault>
    ensures was_there { IfOk result (λ was_there. was_there ≡ has_text names.old name.now) }
    ensures names { OnOk result ((q : List ℕ) → has_text names.new q ≡ (bytes_eq q name.now || has_text names.old q)) }
    ensures err { IfErr result (λ fault. fault ≡ faults.Memory) }
{
    match names.insert(name) {
        Ok(is_new) => Ok(!is_new),
        Err(_) => Err(CheckFault::Memory),
    }
}

/// The rule on the index of an export.
fn space_rule(context: &Context, export: &ExportRef<'_>) -> Option<CheckWhy>
    ensures { result ≡ first (rule whys.Index (nat_le (space_size context.now export.now.kind) export.now.index)) }
{
    let size = size_of_space(context, export.kind());
    broken_if(CheckWhy::Index, size <= export.index() as usize)
}

/// The exports, whose names differ.
fn check_distinct_exports(module: &Module, context: &Context) -> Result<(), CheckFault>
    requires rules { context.now ≡ module_context «module».now }
    requires distinct { AreDistinct «module».now.exports }
    ensures { result ≡ verdict (each (broken_export «module».now) 0 «module».now.exports) }
{
    // All of them can be counted, so the count doesn't overflow.
    let _ = module.exports.len();
    let mut place: usize = 0;
    for export in module.exports.iter() {
        judge(Item::Export(place), space_rule(context, &export))?;
        place += 1;
    }
    Ok(())
}

/// The exports, whatever their names. The error may be want of memory, for the set of their names.
fn check_any_exports(alloc: Global, module: &Module, context: &Context) -> Result<(), CheckFault>
    requires { context.now ≡ module_context «module».now }
    ensures ok { OnOk result (each (broken_export «module».now) 0 «module».now.exports ≡ []) }
    ensures err { IfErr result (IsFirstOf (each (broken_export «module».now) 0 «module».now.exports)) }
{
    let mut names = BTreeSet::new(alloc);
    // All of them can be counted, so the count doesn't overflow.
    let _ = module.exports.len();
    let mut place: usize = 0;
    for export in module.exports.iter() {
        let is_taken = add_name(&mut names, export.name())?;
        let space = space_rule(context, &export);
        let why = space.or(broken_if(CheckWhy::ExportName, is_taken));
        judge(Item::Export(place), why)?;
        place += 1;
    }
    Ok(())
}

/// The exports. The error may be want of memory, for what is kept of their names. A set of the names is made only where
/// two of them have the same hash.
pub(crate) fn check_exports(
    alloc: Global,
    module: &Module,
    context: &Context,
) -> Result<(), CheckFault>
    requires { context.now ≡ module_context «module».now }
    ensures ok { OnOk result (each (broken_export «module».now) 0 «module».now.exports ≡ []) }
    ensures err { IfErr result (IsFirstOf (each (broken_export «module».now) 0 «module».now.exports)) }
{
    match have_distinct_hashes(alloc, &module.exports) {
        Ok(true) => check_distinct_exports(module, context),
        Ok(false) => check_any_exports(alloc, module, context),
        Err(_) => Err(CheckFault::Memory),
    }
}
