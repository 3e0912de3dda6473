//! Constant expressions.

ghost use Rattle.std.specs.Prelude.{◌≡◌, List, IfOk, OnOk};
ghost use Rattle.wc_spaces.specs.Standard.Least.{least_from};
ghost use Rattle.wc_surface.specs.declared.field.Field.{Field as FieldValue};
ghost use Rattle.wc_declare.specs.Kept.Declaring.{IsDeclared};
ghost use Rattle.wc_resolve_func.specs.Standard.Constants.{constant_of, constant_faults};

use crate::uses::type_indices;
use std::alloc::{AllocError, Global};
use wc_ast::Constant;
use wc_declare::Declared;
use wc_resolve_code::{Around, NameWhy, resolve_body};
use wc_spaces::{Noted, Space};
use wc_surface::KeptBody;

/// The instructions of a first value or of an offset (Core 1.0, 6.6.8, 6.6.11 and 6.6.12), with numbers in place of
/// identifiers. What nothing has is noted at its token. The error is want of memory: what was noted is then of no use.
pub fn resolve_constant<'a>(
    alloc: Global,
    declared: &Declared<'a>,
    body: &'a KeptBody<'_>,
    noted: &mut Noted<NameWhy>,
) -> Result<Constant, AllocError>
    ensures constant { (fs : List FieldValue) → IsDeclared fs declared.now
        → IfOk result (λ code. code ≡ constant_of fs body.now) }
    ensures noted { (fs : List FieldValue) → IsDeclared fs declared.now
        → OnOk result (noted.new.first ≡ least_from noted.old.first (constant_faults fs body.now)) }
{
    let locals = Space::new(alloc);
    let uses = type_indices(alloc, declared, body.uses())?;
    let around = Around {
        funcs: &declared.spaces.funcs,
        globals: &declared.spaces.globals,
        locals: &locals,
        uses: uses.as_slice(),
    };
    let resolved = resolve_body(alloc, &around, body, noted)?;
    Ok(resolved.into_constant())
}
