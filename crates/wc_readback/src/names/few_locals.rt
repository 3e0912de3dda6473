//! How many locals a function declares, which its type keeps within the limit.

ghost use Rattle.std.specs.Prelude.{◌≤◌, length};
ghost use Rattle.wc_ast.specs.Standard.LocalGroups.{locals_limit};
ghost use Rattle.wc_readback.specs.Names.Known.{HasFewLocals};

use wc_ast::{FuncRef, Module};

fn func_has_few_locals(func: &FuncRef<'_>)
    ensures { length func.now.locals ≤ locals_limit }
{
    let _groups = func.locals().groups();
}

/// No function of a module declares more locals than may be (Core 1.0, 5.5.13). It does nothing, in time that grows
/// with the number of functions.
pub fn module_has_few_locals(module: &Module)
    ensures { HasFewLocals module.now }
{
    let mut left = module.funcs.iter();
    while let Some(func) = left.next() {
        func_has_few_locals(&func);
    }
}
