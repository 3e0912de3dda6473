//! The start function.

ghost use Rattle.std.specs.Prelude.{◌≡◌, false, slice_get};
ghost use Rattle.std.specs.Option.{option_map_or, option_and_then};
ghost use Rattle.wc_check.specs.Standard.Rules.{first};
ghost use Rattle.wc_check.specs.Standard.Spaces.{module_context, func_space, imported_funcs};
ghost use Rattle.wc_check.specs.Standard.Broken.{start_rules, has_values};

use crate::context::Context;
use crate::fault::{CheckWhy, broken_if};
use wc_ast::{Desc, FuncType, Imports, Module};

/// The first rule that the start function breaks.
pub(crate) fn start_rule(module: &Module, context: &Context) -> Option<CheckWhy>
    requires { context.now ≡ module_context «module».now }
    ensures { result ≡ first (start_rules «module».now «module».now.start) }
{
    match module.start {
        None => None,
        Some(index) => {
            let index = index as usize;
            let space = broken_if(CheckWhy::Index, context.funcs <= index);
            let type_index = type_of_func(module, context, index);
            let is_other = takes_or_gives(module.types.as_slice(), type_index);
            space.or(broken_if(CheckWhy::StartType, is_other))
        }
    }
}

/// Whether the type of this index has parameters or results.
fn takes_or_gives(types: &[FuncType], index: Option<u32>) -> bool
    ensures { result ≡ option_map_or has_values (option_and_then (λ t. slice_get types.now t) index) false }
{
    match index {
        None => false,
        Some(index) => match types.get(index as usize) {
            None => false,
            Some(func_type) => has_any(func_type),
        },
    }
}

/// Whether a function type has parameters or results.
fn has_any(func_type: &FuncType) -> bool
    ensures { result ≡ has_values func_type.now }
{
    0 < func_type.params.len() || 0 < func_type.results.len()
}

/// The index of the type of the function of this index.
fn type_of_func(module: &Module, context: &Context, index: usize) -> Option<u32>
    requires { context.now ≡ module_context «module».now }
    ensures { result ≡ slice_get (func_space «module».now) index }
{
    let start = context.funcs - module.funcs.len();
    if index < start {
        return type_of_import(&module.imports, index);
    }
    type_at(module.funcs.types(), index - start)
}

/// The index of the type at this place.
fn type_at(types: &[u32], place: usize) -> Option<u32>
    ensures { result ≡ slice_get types.now place }
{
    match types.get(place) {
        Some(ty) => Some(*ty),
        None => None,
    }
}

/// The index of the type of the imported function of this index.
fn type_of_import(imports: &Imports, index: usize) -> Option<u32>
    ensures { result ≡ slice_get (imported_funcs imports.now) index }
{
    let mut left = index;
    for import in imports.iter() {
        if let Desc::Func(ty) = import.desc() {
            if left == 0 {
                return Some(ty);
            }
            left -= 1;
        }
    }
    None
}
