//! The types of declared locals.

ghost use Rattle.std.specs.Prelude.{◌≡◌, ◌≤◌, ◌+◌, ◌++◌, map, length, replicate, IfOk, OnOk};
ghost use Rattle.wc_ast.specs.Standard.LocalGroups.{locals_limit};
ghost use Rattle.wc_surface.specs.Standard.WrittenLocals.{written_out};

use std::alloc::{AllocError, Global};
use wc_ast::{Locals, LocalsFault, ValType};
use wc_surface::LocalGroup;

/// So many of this type. The error is want of memory.
fn put(types: &mut Locals, count: u32, value_type: ValType) -> Result<(), AllocError>
    requires { length types.old + count ≤ locals_limit }
    ensures { OnOk result (types.new ≡ types.old ++ replicate count value_type) }
{
    match types.push_group(count, value_type) {
        Ok(()) => Ok(()),
        Err(LocalsFault::Memory) => Err(AllocError),
        Err(LocalsFault::TooMany) => unreachable!(),
    }
}

/// The types of declared locals, in order. The error is want of memory.
pub(crate) fn local_types(alloc: Global, groups: &[LocalGroup<'_>]) -> Result<Locals, AllocError>
    requires { length (written_out groups.now) ≤ locals_limit }
    ensures { IfOk result (λ types. types ≡ map (λ l. l.ty) (written_out groups.now)) }
{
    let mut types = Locals::new(alloc);
    for group in groups {
        put(&mut types, group.count, group.ty)?;
    }
    Ok(types)
}
