//! Functions in one row, and their copies.

use std::alloc::Global;
use std::process::Abort;
use std::test::Fail;
use wc_ast::{
    Body, BodyBuilder, Entry, Func, FuncRef, Funcs, Group, Instr, Locals, SimpleOp, TryClone,
    ValType,
};

const NONE: &[Group] = &[];

const SOME: &[Group] = &[
    Group {
        count: 2,
        value_type: ValType::I32,
    },
    Group {
        count: 1,
        value_type: ValType::I64,
    },
];

const MOST: &[Group] = &[Group {
    count: 50_000,
    value_type: ValType::I64,
}];

/// Of a function, the index of its type, the groups of its locals, and its bytes, each a `nop`.
type Added = (u32, &'static [Group], &'static [u8]);

static ADDED: [Added; 5] = [
    (7, NONE, &[]), // neither locals nor instructions
    (0, SOME, &[0x01, 0x01]),
    (u32::MAX, MOST, &[]),
    (7, NONE, &[0x01, 0x01, 0x01]),
    (1, SOME, &[0x01]),
];

fn nops(mut builder: BodyBuilder, count: usize) -> Result<Body, Fail> {
    for _ in 0..count {
        builder.push(Entry::Plain(Instr::Simple(SimpleOp::Nop)))?;
    }
    Ok(builder.finish_with_room()?)
}

fn push_groups(locals: &mut Locals, groups: &[Group]) -> Result<(), Fail> {
    for group in groups {
        locals.push_group(group.count, group.value_type)?;
    }
    Ok(())
}

fn func(alloc: Global, ty: u32, groups: &[Group], count: usize) -> Result<Func, Fail> {
    let mut locals = Locals::new(alloc);
    push_groups(&mut locals, groups)?;
    let body = nops(BodyBuilder::new(alloc), count)?;
    Ok(Func { ty, locals, body })
}

fn push(funcs: &mut Funcs, func: &Func) -> Result<(), Fail> {
    Ok(funcs.push(func)?)
}

fn add(alloc: Global, funcs: &mut Funcs, row: &Added) -> Result<(), Fail> {
    let (ty, groups, bytes) = *row;
    let func = func(alloc, ty, groups, bytes.len())?;
    push(funcs, &func)
}

fn add_all(alloc: Global, funcs: &mut Funcs) -> Result<(), Fail> {
    for row in &ADDED {
        add(alloc, funcs, row)?;
    }
    Ok(())
}

fn made(alloc: Global) -> Result<Funcs, Fail> {
    let mut funcs = Funcs::new(alloc);
    add_all(alloc, &mut funcs)?;
    Ok(funcs)
}

/// Whether the function is the one at this place.
fn is_added(place: usize, func: &FuncRef<'_>) -> bool {
    match ADDED.get(place) {
        Some(&(ty, groups, bytes)) => {
            func.ty() == ty && func.locals().groups() == groups && func.body().bytes() == bytes
        }
        None => false,
    }
}

/// How many functions are those added, one after the other.
fn in_order(funcs: &Funcs) -> usize {
    let mut done = 0usize;
    for func in funcs.iter() {
        if !is_added(done, &func) {
            break;
        }
        done = done.saturating_add(1);
    }
    done
}

/// The functions are those added, in their order.
fn check_added(rt: &impl Abort, funcs: &Funcs) {
    assert_eq!(rt;
        (funcs.len(), funcs.codes().len(), funcs.iter().count()),
        (5, 5, 5)
    );
    assert_eq!(rt; funcs.types(), [7, 0, u32::MAX, 7, 1].as_slice());
    assert_eq!(rt; in_order(funcs), 5);
}

#[test]
fn functions_stand_in_their_order(rt: HostRuntime) -> Result<(), Fail> {
    let funcs = made(rt.alloc())?;
    let copy = funcs.try_clone()?;
    check_added(&rt, &copy);
    Ok(())
}

/// How many instructions each body has that is built in the memory of the one before it.
const IN_TURN: [usize; 5] = [3, 0, 40, 7, 0];

#[test]
fn memory_of_another_body_changes_nothing(rt: HostRuntime) -> Result<(), Fail> {
    let mut body = Body::new(rt.alloc());
    for &count in &IN_TURN {
        body = nops(BodyBuilder::reusing(body), count)?;
        assert_eq!(rt; body.bytes().len(), count);
    }
    Ok(())
}
