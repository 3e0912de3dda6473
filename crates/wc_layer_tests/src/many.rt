//! Modules of a million members, which only a check in time proportional to them ends within a test's time.

use std::alloc::{AllocError, Global};
use std::process::Abort;
use std::test::Fail;
use wc_ast::{BodyBuilder, ExportKind, Func, FuncType, List, Locals, Module};
use wc_check::{CheckFault, CheckWhy, Item, check};

const MANY: usize = 1_000_000;

/// A module of one empty type.
fn with_type(alloc: Global) -> Result<Module, Fail> {
    let mut module = Module::new(alloc);
    module.types.push(FuncType {
        params: List::new(alloc),
        results: List::new(alloc),
    })?;
    Ok(module)
}

/// Adds a function.
fn add(module: &mut Module, func: &Func) -> Result<(), AllocError> {
    module.funcs.push(func)
}

/// Exports the function once more, under this number for a name.
fn export(alloc: Global, module: &mut Module, number: usize) -> Result<(), AllocError> {
    let name = format!(in alloc; "{number}")?;
    module.exports.push(name.as_str(), ExportKind::Func, 0)
}

fn export_many(alloc: Global, module: &mut Module) -> Result<(), AllocError> {
    for number in 0..MANY {
        export(alloc, module, number)?;
    }
    Ok(())
}

/// Of a module of one function.
fn check_exports(rt: &(impl Abort + AllocGlobal), module: &mut Module) -> Result<(), Fail> {
    export_many(rt.alloc(), module)?;
    assert_eq!(rt; check(rt.alloc(), module), Ok(()));
    export(rt.alloc(), module, MANY / 2)?;
    let twice = CheckFault::Broken {
        item: Item::Export(MANY),
        why: CheckWhy::ExportName,
    };
    assert_eq!(rt; check(rt.alloc(), module), Err(twice));
    Ok(())
}

#[test]
fn many_exports(rt: HostRuntime) -> Result<(), Fail> {
    let mut module = with_type(rt.alloc())?;
    define(rt.alloc(), &mut module, 0)?;
    check_exports(&rt, &mut module)
}

/// Adds a function of the type of this index.
fn define(alloc: Global, module: &mut Module, type_index: u32) -> Result<(), Fail> {
    let body = BodyBuilder::new(alloc).finish()?;
    let func = Func {
        ty: type_index,
        locals: Locals::new(alloc),
        body,
    };
    Ok(add(module, &func)?)
}

fn define_many(alloc: Global, module: &mut Module) -> Result<(), Fail> {
    for _ in 0..MANY {
        define(alloc, module, 0)?;
    }
    Ok(())
}

/// Of a module of one type.
fn check_functions(rt: &(impl Abort + AllocGlobal), module: &mut Module) -> Result<(), Fail> {
    define_many(rt.alloc(), module)?;
    assert_eq!(rt; check(rt.alloc(), module), Ok(()));
    define(rt.alloc(), module, 1)?;
    let unknown = CheckFault::Broken {
        item: Item::Func(MANY),
        why: CheckWhy::TypeIndex,
    };
    assert_eq!(rt; check(rt.alloc(), module), Err(unknown));
    Ok(())
}

#[test]
fn many_functions(rt: HostRuntime) -> Result<(), Fail> {
    let mut module = with_type(rt.alloc())?;
    check_functions(&rt, &mut module)
}
