//! How many parameters types have.

ghost use Rattle.std.specs.Prelude.{◌≡◌, ◌<◌, ◌^◌, List, length, IfOk, slice_index_or};
ghost use Rattle.std.specs.List.{All};
ghost use Rattle.wc_surface.specs.Kept.Keyed.{params_in};
ghost use Rattle.wc_surface.specs.declared.field.Field.{Field as FieldValue};
ghost use Rattle.wc_declare.specs.Kept.Declaring.{IsDeclared};
ghost use Rattle.wc_resolve_func.specs.Standard.Locals.{param_counts as all_param_counts};

use std::alloc::{AllocError, Global};
use wc_declare::Declared;

/// How many parameters the type of this key has: so many bytes stand before the first zero.
fn params_in_key(key: &[u8]) -> usize
    ensures { result ≡ length (params_in key.now) }
{
    let mut count = 0;
    for byte in key {
        if *byte == 0 {
            return count;
        }
        count += 1;
    }
    count
}

/// How many parameters each type has, in order (Core 1.0, 6.6.3): functions that name a type take them from it. The
/// error is want of memory.
pub fn param_counts(alloc: Global, declared: &Declared<'_>) -> Result<Vec<usize>, AllocError>
    ensures { (fs : List FieldValue) → IsDeclared fs declared.now
        → IfOk result (λ counts. counts.items ≡ all_param_counts fs) }
{
    let keys = declared.types.keys();
    let mut counts = Vec::with_capacity(alloc, keys.len())?;
    for key in keys {
        counts.push(params_in_key(key))?;
    }
    Ok(counts)
}

/// How many the type of this index has; none, where there is no such type.
pub(crate) fn count_at(counts: &[usize], index: u32) -> u32
    requires { All (λ n. n < 2 ^ 32) counts.now }
    ensures { result ≡ slice_index_or counts.now index 0 }
{
    match counts.get(index as usize) {
        Some(count) => *count as u32,
        None => 0,
    }
}
