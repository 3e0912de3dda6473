//! The functions and globals that a module defines.

ghost use Rattle.std.specs.Prelude.{◌≡◌, ◌+◌, true, length, IfOk};
ghost use Rattle.wc_check.specs.Standard.Rules.{each};
ghost use Rattle.wc_check.specs.Judging.Verdicts.{verdict};
ghost use Rattle.wc_check.specs.Standard.Spaces.{module_context, param_count, imported_funcs, imported_globals};
ghost use Rattle.wc_check.specs.Standard.Broken.{broken_func, broken_global};
ghost use Rattle.wc_check.specs.Judging.Enough.{IsKnown, run_starts};
ghost use Rattle.wc_body.specs.Standard.Needed.{needs_of};

use crate::bodies::{Known, check_body, known_of};
use crate::constants::has_constant;
use crate::context::Context;
use crate::fault::{CheckFault, CheckWhy, Item, broken_if, judge};
use std::alloc::{AllocError, Global};
use wc_ast::{FuncRef, FuncType, GlobalType, LocalsRef, Module, ValType};

/// How many locals there are, where these are the parameters.
fn count_locals(params: &[ValType], locals: &LocalsRef<'_>) -> usize
    ensures { result ≡ length params.now + length locals.now }
{
    params.len() + locals.len() as usize
}

/// How many locals a function has, its parameters first (Core 1.0, 2.5.3).
fn locals_of(types: &[FuncType], func: &FuncRef<'_>) -> usize
    ensures { result ≡ param_count types.now func.now.ty + length func.now.locals }
{
    match types.get(func.ty() as usize) {
        Some(func_type) => count_locals(func_type.params.as_slice(), func.locals()),
        None => func.locals().len() as usize,
    }
}

/// The function of this index, and then its instructions. Of each global it is told where the run of mutable ones
/// begins that it ends, and it is told what is known of the bodies of all functions.
fn check_func(
    module: &Module,
    context: &Context,
    starts: &[usize],
    known: Known,
    index: usize,
    func: &FuncRef<'_>,
) -> Result<(), CheckFault>
    requires rules { context.now ≡ module_context «module».now }
    requires starts { starts.now ≡ run_starts 0 0 context.now.globals }
    requires known { IsKnown context.now known (needs_of func.now.body) }
    ensures { result ≡ verdict (broken_func «module».now index func.now) }
{
    let why = broken_if(CheckWhy::TypeIndex, context.types <= func.ty() as usize);
    judge(Item::Func(index), why)?;
    let locals = locals_of(module.types.as_slice(), func);
    check_body(context, starts, known, locals, index, func.body())
}

/// Of each global, where the run of mutable ones begins that it ends, or what follows it where it is constant. The
/// error is want of memory.
pub(crate) fn run_starts(alloc: Global, globals: &[GlobalType]) -> Result<Vec<usize>, AllocError>
    ensures { IfOk result (λ starts. starts.items ≡ run_starts 0 0 globals.now) }
{
    let mut starts = Vec::with_capacity(alloc, globals.len())?;
    let mut start = 0;
    for (place, global) in globals.iter().enumerate() {
        if !global.mutable {
            start = place + 1;
        }
        starts.push(start)?;
    }
    Ok(starts)
}

/// The functions that the module defines. Of each global it is told where the run of mutable ones begins that it ends.
pub(crate) fn check_funcs(
    module: &Module,
    context: &Context,
    starts: &[usize],
) -> Result<(), CheckFault>
    requires rules { context.now ≡ module_context «module».now }
    requires starts { starts.now ≡ run_starts 0 0 context.now.globals }
    ensures { result
        ≡ verdict (each (broken_func «module».now) (length (imported_funcs «module».now.imports)) «module».now.funcs) }
{
    let known = known_of(context, module.funcs.needs());
    let mut index = context.funcs - module.funcs.len();
    let mut funcs = module.funcs.iter();
    while let Some(func) = funcs.next() {
        check_func(module, context, starts, known, index, &func)?;
        index += 1;
    }
    Ok(())
}

/// The globals that the module defines.
pub(crate) fn check_globals(module: &Module, context: &Context) -> Result<(), CheckFault>
    requires { context.now ≡ module_context «module».now }
    ensures { result
        ≡ verdict
        (each (broken_global «module».now) (length (imported_globals «module».now.imports)) «module».now.globals) }
{
    let start = context.globals.len() - module.globals.len();
    let readable = &context.globals.as_slice()[..start];
    for (place, global) in module.globals.as_slice().iter().enumerate() {
        let is_constant = has_constant(readable, global.ty.ty, &global.init);
        let why = broken_if(CheckWhy::Constant, !is_constant);
        judge(Item::Global(start + place), why)?;
    }
    Ok(())
}
