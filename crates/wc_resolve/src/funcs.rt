//! Functions.

ghost use Rattle.std.specs.Prelude.{◌≡◌, ◌<◌, ◌≤◌, ◌+◌, ◌^◌, ◌++◌, List, length, IfOk, OnOk};
ghost use Rattle.std.specs.List.{All};
ghost use Rattle.wc_ast.specs.Standard.LocalGroups.{locals_limit};
ghost use Rattle.wc_spaces.specs.Standard.Least.{least_from};
ghost use Rattle.wc_surface.specs.declared.field.Field.{Field as FieldValue};
ghost use Rattle.wc_declare.specs.Standard.Inner.{desc_locals, locals_of};
ghost use Rattle.wc_declare.specs.Kept.Declaring.{IsDeclared};
ghost use Rattle.wc_resolve_func.specs.Standard.Locals.{param_counts as counts_of};
ghost use Rattle.wc_resolve_func.specs.Standard.Fitting.{FieldFits};
ghost use Rattle.wc_resolve.specs.Standard.Funcs.{code_of, code_faults, field_funcs, funcs_of, field_func_faults};
ghost use Rattle.wc_resolve.specs.Standard.Funcs.{all_func_faults};

use std::alloc::{AllocError, Global};
use wc_ast::Funcs;
use wc_declare::Declared;
use wc_resolve_code::NameWhy;
use wc_resolve_func::{param_counts, resolve_func};
use wc_spaces::Noted;
use wc_surface::{Field, FuncSeen, KeptFunc};

fn put_code<'a>(
    alloc: Global,
    out: &mut Funcs,
    declared: &Declared<'a>,
    counts: &[usize],
    func: &'a KeptFunc<'_>,
    noted: &mut Noted<NameWhy>,
) -> Result<(), AllocError>
    requires room { All (λ n. n + length (desc_locals func.now.desc) < 2 ^ 32) counts.now }
    requires within { length (desc_locals func.now.desc) ≤ locals_limit }
    ensures funcs { (all : List FieldValue) → IsDeclared all declared.now → counts.now ≡ counts_of all
        → OnOk result (out.new ≡ out.old ++ code_of all func.now.ty func.now.desc) }
    ensures noted { (all : List FieldValue) → IsDeclared all declared.now → counts.now ≡ counts_of all
        → OnOk result (noted.new.first ≡ least_from noted.old.first (code_faults all func.now.ty func.now.desc)) }
{
    match func.desc() {
        FuncSeen::Import(_) => Ok(()),
        FuncSeen::Code { locals, body } => {
            let resolved = resolve_func(alloc, declared, counts, &func.ty(), &locals, body, noted)?;
            out.push(&resolved)
        }
    }
}

/// Adds the function that a field defines. What is wrong with the names in its instructions is noted.
fn put_field<'a>(
    alloc: Global,
    out: &mut Funcs,
    declared: &Declared<'a>,
    counts: &[usize],
    field: &'a Field<'_>,
    noted: &mut Noted<NameWhy>,
) -> Result<(), AllocError>
    requires room { All (λ n. n + length (locals_of field.now) < 2 ^ 32) counts.now }
    requires within { length (locals_of field.now) ≤ locals_limit }
    ensures funcs { (all : List FieldValue) → IsDeclared all declared.now → counts.now ≡ counts_of all
        → OnOk result (out.new ≡ out.old ++ field_funcs all field.now) }
    ensures noted { (all : List FieldValue) → IsDeclared all declared.now → counts.now ≡ counts_of all
        → OnOk result (noted.new.first ≡ least_from noted.old.first (field_func_faults all field.now)) }
{
    match field {
        Field::Func(func) => put_code(alloc, out, declared, counts, func, noted),
        _ => Ok(()),
    }
}

/// The functions that fields define. What is wrong with the names in their instructions is noted. The error is want of
/// memory.
pub(crate) fn funcs<'a>(
    alloc: Global,
    declared: &Declared<'a>,
    fields: &'a [Field<'_>],
    noted: &mut Noted<NameWhy>,
) -> Result<Funcs, AllocError>
    requires declared { IsDeclared fields.now declared.now }
    requires fit { All (FieldFits fields.now) fields.now }
    ensures funcs { IfOk result (λ funcs. funcs ≡ funcs_of fields.now) }
    ensures noted { OnOk result (noted.new.first ≡ least_from noted.old.first (all_func_faults fields.now)) }
{
    let counts = param_counts(alloc, declared)?;
    let mut out = Funcs::new(alloc);
    for field in fields {
        put_field(alloc, &mut out, declared, counts.as_slice(), field, noted)?;
    }
    Ok(out)
}
