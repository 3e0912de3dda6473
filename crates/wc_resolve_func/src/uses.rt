//! The types of type uses.

ghost use Rattle.std.specs.Prelude.{◌≡◌, List, map, IfOk};
ghost use Rattle.wc_surface.specs.declared.field.Field.{Field as FieldValue};
ghost use Rattle.wc_declare.specs.Kept.Declaring.{IsDeclared};
ghost use Rattle.wc_resolve_func.specs.Standard.Locals.{type_index};

use std::alloc::{AllocError, Global};
use wc_declare::Declared;
use wc_surface::{TypeUse, UseRef};

/// The indices of the types that uses are of, in order. The error is want of memory.
pub(crate) fn type_indices<'a>(
    alloc: Global,
    declared: &Declared<'_>,
    uses: &'a [TypeUse<'a>],
) -> Result<Vec<u32>, AllocError>
    ensures { (fs : List FieldValue) → IsDeclared fs declared.now
        → IfOk result (λ indices. indices.items ≡ map (type_index fs) uses.now) }
{
    let mut indices = Vec::with_capacity(alloc, uses.len())?;
    for used in uses {
        indices.push(declared.type_index(&UseRef::of(used)))?;
    }
    Ok(indices)
}
