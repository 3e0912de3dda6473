//! The check of a module.

ghost use Rattle.std.specs.Prelude.{◌≡◌, [], OnOk, IfErr};
ghost use Rattle.wc_check.specs.Standard.Rules.{IsFirstOf};
ghost use Rattle.wc_check.specs.Judging.Enough.{run_starts};
ghost use Rattle.wc_check.specs.Judging.Verdicts.{verdict};
ghost use Rattle.wc_check.specs.Standard.Spaces.{module_context};
ghost use Rattle.wc_check.specs.Standard.Broken.{broken, broken_in_spaces, broken_at_start};

use crate::context::{Context, context_of};
use crate::definitions::{check_funcs, check_globals, run_starts};
use crate::exports::check_exports;
use crate::fault::{CheckFault, Item, judge};
use crate::imports::check_imports;
use crate::segments::{check_datas, check_elems};
use crate::sizes::{check_mems, check_tables};
use crate::start::start_rule;
use std::alloc::Global;
use wc_ast::Module;

/// Whether the module keeps every rule of validation (Core 1.0, chapter 3) but the typing of instructions. `Broken`
/// tells the first item that breaks a rule, and the first rule that it breaks: items in the order imports, functions
/// (each before its instructions), tables, memories, globals, exports, start, element segments, data segments; rules
/// in the order of `CheckWhy`. `Memory` comes only where a growth was refused; memory is wanted for the globals and for
/// the names of the exports.
pub fn check(alloc: Global, module: &Module) -> Result<(), CheckFault>
    ensures ok { OnOk result (broken «module».now ≡ []) }
    ensures err { IfErr result (IsFirstOf (broken «module».now)) }
{
    let context = match context_of(alloc, module) {
        Ok(context) => context,
        Err(_) => return Err(CheckFault::Memory),
    };
    let starts = match run_starts(alloc, context.globals.as_slice()) {
        Ok(starts) => starts,
        Err(_) => return Err(CheckFault::Memory),
    };
    check_spaces(module, &context, &starts)?;
    check_exports(alloc, module, &context)?;
    check_start(module, &context)
}

/// Imports, functions, tables, memories and globals. Of each global it is told where the run of mutable ones begins
/// that it ends.
fn check_spaces(module: &Module, context: &Context, starts: &[usize]) -> Result<(), CheckFault>
    requires rules { context.now ≡ module_context «module».now }
    requires starts { starts.now ≡ run_starts 0 0 context.now.globals }
    ensures { result ≡ verdict (broken_in_spaces «module».now) }
{
    check_imports(module)?;
    check_funcs(module, context, starts)?;
    check_tables(
        context.tables - module.tables.len(),
        module.tables.as_slice(),
    )?;
    check_mems(context.mems - module.mems.len(), module.mems.as_slice())?;
    check_globals(module, context)
}

/// The start function and the segments.
fn check_start(module: &Module, context: &Context) -> Result<(), CheckFault>
    requires { context.now ≡ module_context «module».now }
    ensures { result ≡ verdict (broken_at_start «module».now) }
{
    judge(Item::Start, start_rule(module, context))?;
    check_elems(module, context)?;
    check_datas(module, context)
}
