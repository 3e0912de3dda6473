//! Functions.

ghost use Rattle.std.specs.Prelude.{◌≡◌, ◌<◌, ◌≤◌, ◌+◌, ◌^◌, List, length, IfOk, OnOk};
ghost use Rattle.std.specs.List.{All};
ghost use Rattle.wc_ast.specs.Standard.LocalGroups.{locals_limit};
ghost use Rattle.wc_spaces.specs.Standard.Least.{least_from};
ghost use Rattle.wc_surface.specs.declared.field.Field.{Field as FieldValue};
ghost use Rattle.wc_declare.specs.Kept.Declaring.{IsDeclared};
ghost use Rattle.wc_resolve_func.specs.Standard.Locals.{param_counts};
ghost use Rattle.wc_resolve_func.specs.Standard.Funcs.{func_of, func_faults};

use crate::counts::count_at;
use crate::local_space::local_space;
use crate::local_types::local_types;
use crate::uses::type_indices;
use std::alloc::{AllocError, Global};
use wc_ast::Func;
use wc_declare::Declared;
use wc_resolve_code::{Around, NameWhy, resolve_body};
use wc_spaces::Noted;
use wc_surface::{KeptBody, LocalsRef, UseRef};

/// A function (Core 1.0, 6.6.5) with numbers in place of identifiers and type uses, where `param_counts` gave how many
/// parameters each type has. In its instructions, what nothing has is noted at its token. The error is want of memory:
/// what was noted is then of no use.
pub fn resolve_func<'a>(
    alloc: Global,
    declared: &Declared<'a>,
    counts: &[usize],
    ty: &UseRef<'a>,
    locals: &LocalsRef<'a>,
    body: &'a KeptBody<'_>,
    noted: &mut Noted<NameWhy>,
) -> Result<Func, AllocError>
    requires room { All (λ n. n + length locals.now < 2 ^ 32) counts.now }
    requires within { length locals.now ≤ locals_limit }
    ensures func { (fs : List FieldValue) → IsDeclared fs declared.now → counts.now ≡ param_counts fs
        → IfOk result (λ func. func ≡ func_of fs ty.now locals.now body.now) }
    ensures noted { (fs : List FieldValue) → IsDeclared fs declared.now → counts.now ≡ param_counts fs
        → OnOk result (noted.new.first ≡ least_from noted.old.first (func_faults fs ty.now locals.now body.now)) }
{
    let index = declared.type_index(ty);
    let count = count_at(counts, index);
    let space = local_space(alloc, count, ty.names(), locals.groups())?;
    let uses = type_indices(alloc, declared, body.uses())?;
    let around = Around {
        funcs: &declared.spaces.funcs,
        globals: &declared.spaces.globals,
        locals: &space,
        uses: uses.as_slice(),
    };
    let code = resolve_body(alloc, &around, body, noted)?;
    Ok(Func {
        ty: index,
        locals: local_types(alloc, locals.groups())?,
        body: code,
    })
}
