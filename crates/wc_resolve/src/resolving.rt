//! The module that a text denotes.

ghost use Rattle.std.specs.Prelude.{◌≡◌, ◌⊎◌, ℕ, None, List, IfOk, IfErr, OnOk, MatchResult, IsErrAnd};
ghost use Rattle.std.specs.List.{All};
ghost use Rattle.wc_ast.specs.declared.module.Module.{Module as ModuleValue};
ghost use Rattle.wc_spaces.specs.Standard.Least.{least_from};
ghost use Rattle.wc_surface.specs.Standard.Sizes.{IsSurface};
ghost use Rattle.wc_resolve_code.specs.declared.why.NameWhy.{NameWhy as Why};
ghost use Rattle.wc_declare.specs.Kept.Declaring.{IsDeclared, IsNoted};
ghost use Rattle.wc_declare.specs.declared.fault.NameFault.TheVariants.{Bad, Memory};
ghost use Rattle.wc_resolve_func.specs.Standard.Fitting.{FieldFits};
ghost use Rattle.wc_resolve.specs.Standard.Denoted.{denoted as module_of, reference_faults, FirstFault, Names};
ghost use Rattle.wc_resolve.specs.Kept.Refused.{IsTold, IsFirst};

use crate::funcs::funcs;
use crate::lists::gather;
use std::alloc::{AllocError, Global};
use wc_ast::Module;
use wc_declare::{Declared, NameFault, declare};
use wc_resolve_code::NameWhy;
use wc_resolve_func::functions_fit;
use wc_spaces::Noted;
use wc_surface::{Field, Surface};

/// The lists of the module. What is wrong with names is noted. The error is want of memory.
fn denoted<'a>(
    alloc: Global,
    declared: &Declared<'a>,
    fields: &'a [Field<'_>],
    noted: &mut Noted<NameWhy>,
) -> Result<Module, AllocError>
    requires declared { IsDeclared fields.now declared.now }
    requires surface { IsSurface fields.now }
    requires fit { All (FieldFits fields.now) fields.now }
    ensures module { IfOk result (λ found. found ≡ module_of fields.now) }
    ensures noted { OnOk result (noted.new.first ≡ least_from noted.old.first (reference_faults fields.now)) }
{
    let lists = gather(alloc, declared, fields, noted)?;
    let funcs = funcs(alloc, declared, fields, noted)?;
    Ok(Module {
        types: declared.func_types(alloc)?,
        imports: lists.imports,
        funcs,
        tables: lists.tables,
        mems: lists.memories,
        globals: lists.globals,
        exports: lists.exports,
        start: lists.start,
        elems: lists.elems,
        datas: lists.datas,
    })
}

/// No fault, or the one that is noted.
fn answer(noted: &Noted<NameWhy>) -> Result<(), NameFault>
    ensures none { IfOk result (λ _. noted.now.first ≡ None) }
    ensures fault { IfErr result (IsNoted noted.now.first) }
{
    match noted.first {
        None => Ok(()),
        Some(fault) => Err(NameFault::Bad {
            token: u64::from(fault.token),
            why: fault.why,
        }),
    }
}

/// The module, where the third stage finds no fault either.
fn referenced<'a>(
    alloc: Global,
    declared: &Declared<'a>,
    fields: &'a [Field<'_>],
) -> Result<Module, NameFault>
    requires declared { IsDeclared fields.now declared.now }
    requires surface { IsSurface fields.now }
    requires fit { All (FieldFits fields.now) fields.now }
    ensures module { IfOk result (λ found. found ≡ module_of fields.now) }
    ensures none { IfOk result (λ _. least_from None (reference_faults fields.now) ≡ None) }
    ensures fault { IfErr result (IsTold (least_from None (reference_faults fields.now))) }
{
    let mut noted = Noted::nothing();
    let module = denoted(alloc, declared, fields, &mut noted)?;
    answer(&noted)?;
    Ok(module)
}

/// The module of the fields, or their first fault.
fn resolve_fields<'a>(alloc: Global, surface: &'a Surface<'_>) -> Result<Module, NameFault>
    ensures module { IfOk result (Names surface.now) }
    ensures fault { IfErr result (IsFirst surface.now) }
{
    let fields = surface.fields();
    let declared = declare(alloc, surface)?;
    functions_fit();
    referenced(alloc, &declared, fields)
}

/// The module that a text denotes (Core 1.0, 6.6.13): numbers stand in place of identifiers, each type use is the index
/// of its type, each inline form is the fields that it stands for, and defaults are written out. The error is the first
/// fault, or want of memory. Declarations are judged first, then type uses, and then what else is named: the fault is
/// that of the first of these stages that has one, there the one of the least token.
pub fn resolve<'a>(alloc: Global, surface: &'a Surface<'_>) -> Result<Module, NameFault>
    ensures ok { IfOk result (Names surface.now) }
    ensures only { (m : ModuleValue) → Names surface.now m
        → MatchResult result (λ found. found ≡ m) (λ f. f ≡ Memory) }
    ensures fault { IfErr result (IsFirst surface.now) }
    ensures only_fault { (token : ℕ) (why : Why) → FirstFault surface.now token why
        → IsErrAnd result (λ f. (f ≡ Bad token why) ⊎ (f ≡ Memory)) }
{
    resolve_fields(alloc, surface)
}
