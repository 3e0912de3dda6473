//! Bodies of functions, drawn.

use crate::draws::Draws;
use crate::names::put_local_name;
use crate::operator::{
    ADD, BINARY, BLOCK, BR, BR_IF, CALL, CONSTANT, DROP, GLOBAL_GET, GLOBAL_SET, IF, IS_ZERO,
    Immediate, LOADS, LOCAL_GET, LOCAL_SET, LOCAL_TEE, LONG_BINARY, LONG_CONSTANT, LONG_LOAD,
    LONG_STORE, LOOP, RETURN, SELECT, STORES, SUBTRACT,
};
use crate::pen::{Open, Pen};
use crate::shape::{Shape, put_named_signature, put_signature, shape_of};
use crate::sheet::Sheet;
use crate::spelling::{put_decimal, put_unsigned};
use std::alloc::Global;

/// What a function's instructions may name.
#[derive(Clone, Copy)]
pub struct Scope {
    /// How many functions there are to call; the type of each is that of its index among the types.
    pub callees: u32,
    /// How many locals of 32 bits there are, parameters among them; one more has 64 bits.
    pub locals: u32,
    /// Of the globals, how many are set: each second one, or the first alone.
    pub set_globals: u32,
}

/// A drawn function in its spellings.
#[derive(Drop)]
pub struct Drawn {
    pub type_index: u32,
    /// Its code with its size in front.
    pub code: Sheet,
    /// Its text behind `(func`, up to its last parenthesis.
    pub flat: Sheet,
    /// The same in folded instructions.
    pub folded: Sheet,
    /// The same with identifiers.
    pub named: Sheet,
}

/// A constant as compiled programs have them.
fn number(draws: &mut Draws) -> i64 {
    match draws.below(9) {
        0..=5 => i64::from(draws.below(24)) - 2,
        6 => i64::from(draws.below(16)) * 16,
        7 => i64::from(draws.below(1000)),
        _ => -i64::from(draws.below(100_000)),
    }
}

/// An offset as compiled programs have them.
fn offset(draws: &mut Draws) -> u32 {
    match draws.below(10) {
        0..=2 => 0,
        3..=8 => draws.below(30) * 4,
        _ => draws.below(2000),
    }
}

fn local(draws: &mut Draws, scope: Scope) -> Immediate {
    Immediate::Local(draws.below(scope.locals))
}

fn global(draws: &mut Draws, scope: Scope) -> Immediate {
    if scope.set_globals < 2 {
        return Immediate::Global(0);
    }
    Immediate::Global(
        draws
            .below(scope.set_globals)
            .wrapping_mul(2)
            .wrapping_add(1),
    )
}

fn leaf(pen: &mut Pen, draws: &mut Draws, scope: Scope, inside: usize) {
    if draws.below(100) < 62 {
        let index = local(draws, scope);
        pen.put(LOCAL_GET, index, inside);
        return;
    }
    let constant = if draws.below(10) == 0 {
        Immediate::Address(1024 + draws.below(60_000))
    } else {
        Immediate::Number(number(draws))
    };
    pen.put(CONSTANT, constant, inside);
}

/// Puts an expression of at most so many levels.
fn expression(pen: &mut Pen, draws: &mut Draws, scope: Scope, levels: usize, inside: usize) {
    let turn = draws.below(100);
    if levels == 0 || turn < 30 {
        leaf(pen, draws, scope, inside);
        return;
    }
    let deeper = inside.saturating_add(1);
    match turn {
        30..=54 => {
            let (operator, exponent) = draws.one_of(&LOADS, (ADD, 0));
            let memory = Immediate::Memory(exponent, offset(draws));
            pen.begin(operator, memory, inside);
            expression(pen, draws, scope, levels - 1, deeper);
            pen.end(operator, memory);
        }
        55..=84 => {
            let operator = draws.one_of(&BINARY, ADD);
            pen.begin(operator, Immediate::None, inside);
            expression(pen, draws, scope, levels - 1, deeper);
            leaf(pen, draws, scope, deeper);
            pen.end(operator, Immediate::None);
        }
        85..=94 => {
            let index = local(draws, scope);
            pen.begin(LOCAL_TEE, index, inside);
            expression(pen, draws, scope, levels - 1, deeper);
            pen.end(LOCAL_TEE, index);
        }
        95..=98 => {
            pen.begin(IS_ZERO, Immediate::None, inside);
            expression(pen, draws, scope, levels - 1, deeper);
            pen.end(IS_ZERO, Immediate::None);
        }
        _ => {
            pen.begin(SELECT, Immediate::None, inside);
            leaf(pen, draws, scope, deeper);
            leaf(pen, draws, scope, deeper);
            expression(pen, draws, scope, levels - 1, deeper);
            pen.end(SELECT, Immediate::None);
        }
    }
}

/// Sets a local.
fn assign(pen: &mut Pen, draws: &mut Draws, scope: Scope) {
    let index = local(draws, scope);
    pen.begin(LOCAL_SET, index, 0);
    expression(pen, draws, scope, 4, 1);
    pen.end(LOCAL_SET, index);
}

/// Stores a value.
fn store(pen: &mut Pen, draws: &mut Draws, scope: Scope) {
    let (operator, exponent) = draws.one_of(&STORES, (ADD, 0));
    let memory = Immediate::Memory(exponent, offset(draws));
    pen.begin(operator, memory, 0);
    let base = local(draws, scope);
    pen.put(LOCAL_GET, base, 1);
    expression(pen, draws, scope, 2, 1);
    pen.end(operator, memory);
}

/// Works on 64 bits.
fn long(pen: &mut Pen, draws: &mut Draws, scope: Scope) {
    let wide = Immediate::Local(scope.locals);
    let operator = draws.one_of(&LONG_BINARY, ADD);
    let memory = Immediate::Memory(3, offset(draws));
    pen.begin(LONG_STORE, memory, 0);
    pen.put(LOCAL_GET, Immediate::Local(0), 1);
    pen.begin(operator, Immediate::None, 1);
    pen.begin(LONG_LOAD, memory, 2);
    pen.put(LOCAL_GET, Immediate::Local(0), 3);
    pen.end(LONG_LOAD, memory);
    if draws.below(2) == 0 {
        pen.put(LOCAL_GET, wide, 2);
    } else {
        let mask = (draws.next() >> (1 + draws.below(60))).cast_signed();
        pen.put(LONG_CONSTANT, Immediate::Number(mask), 2);
    }
    pen.end(operator, Immediate::None);
    pen.end(LONG_STORE, memory);
}

/// Calls a function.
fn call(pen: &mut Pen, draws: &mut Draws, scope: Scope) {
    let callee = draws.below(scope.callees);
    let shape = shape_of(callee % crate::shape::TYPES);
    let index = local(draws, scope);
    let has_local = draws.below(3) > 0;
    let mut inside = 0;
    if shape.has_result {
        inside = 1;
        if has_local {
            pen.begin(LOCAL_SET, index, 0);
        } else {
            pen.begin(DROP, Immediate::None, 0);
        }
    }
    pen.begin(CALL, Immediate::Func(callee), inside);
    for _ in 0..shape.params {
        expression(pen, draws, scope, 1, inside + 1);
    }
    pen.end(CALL, Immediate::Func(callee));
    if shape.has_result && has_local {
        pen.end(LOCAL_SET, index);
    } else if shape.has_result {
        pen.end(DROP, Immediate::None);
    }
}

/// Moves the pointer of the stack, or another global that may be set.
fn move_global(pen: &mut Pen, draws: &mut Draws, scope: Scope) {
    let place = global(draws, scope);
    let index = local(draws, scope);
    pen.begin(GLOBAL_SET, place, 0);
    pen.begin(LOCAL_TEE, index, 1);
    pen.begin(SUBTRACT, Immediate::None, 2);
    pen.put(GLOBAL_GET, place, 3);
    let size = Immediate::Number(i64::from(draws.below(20)) * 16);
    pen.put(CONSTANT, size, 3);
    pen.end(SUBTRACT, Immediate::None);
    pen.end(LOCAL_TEE, index);
    pen.end(GLOBAL_SET, place);
}

/// Leaves a block, where one is open: at once, or where a condition holds.
fn leave(pen: &mut Pen, draws: &mut Draws, scope: Scope) {
    let depth = pen.depth();
    if depth == 0 {
        store(pen, draws, scope);
        return;
    }
    let most = u32::try_from(depth.min(5)).unwrap_or(1);
    let label = Immediate::Label(draws.below(most) as usize);
    if draws.below(4) == 0 {
        pen.put(BR, label, 0);
        return;
    }
    pen.begin(BR_IF, label, 0);
    expression(pen, draws, scope, 2, 1);
    pen.end(BR_IF, label);
}

/// Opens a block, a loop, or an `if` with its condition.
fn open(pen: &mut Pen, draws: &mut Draws, scope: Scope) {
    match draws.below(6) {
        0 => {
            pen.begin_block(LOOP);
            pen.open(LOOP, Open::Block);
        }
        1 => {
            pen.begin_block(IF);
            expression(pen, draws, scope, 2, 1);
            pen.open(IF, Open::Branch);
        }
        _ => {
            pen.begin_block(BLOCK);
            pen.open(BLOCK, Open::Block);
        }
    }
}

/// Puts a statement.
fn statement(pen: &mut Pen, draws: &mut Draws, scope: Scope) {
    let moves = if scope.set_globals < 2 { 1 } else { 12 };
    match draws.below(99 + moves) {
        0..=26 => assign(pen, draws, scope),
        27..=38 => store(pen, draws, scope),
        39..=54 if pen.depth() < 9 => open(pen, draws, scope),
        39..=69 => pen.close(),
        70 => pen.otherwise(),
        71..=90 => leave(pen, draws, scope),
        91..=97 => call(pen, draws, scope),
        98 => long(pen, draws, scope),
        _ => move_global(pen, draws, scope),
    }
}

/// Puts the locals behind the parameters: all of 32 bits, and one of 64.
fn put_locals(code: &mut Sheet, text: &mut Sheet, named: &mut Sheet, shape: Shape, scope: Scope) {
    let short = scope.locals.saturating_sub(shape.params);
    put_unsigned(code, 2);
    put_unsigned(code, u64::from(short));
    code.push(0x7f);
    put_unsigned(code, 1);
    code.push(0x7e);
    text.put(b"\n    (local");
    named.put(b"\n   ");
    for index in shape.params..scope.locals {
        text.put(b" i32");
        named.put(b" (local $");
        put_local_name(named, index);
        named.put(b" i32)");
    }
    text.put(b" i64)");
    named.put(b" (local $");
    put_local_name(named, scope.locals);
    named.put(b" i64)");
}

/// Puts the statements of a body, closes what is open, and puts its result.
fn put_body(pen: &mut Pen, draws: &mut Draws, scope: Scope, shape: Shape, statements: u32) {
    for _ in 0..statements {
        statement(pen, draws, scope);
    }
    for _ in 0..pen.depth() {
        pen.close();
    }
    if shape.has_result {
        leaf(pen, draws, scope, 0);
        if draws.below(8) == 0 {
            pen.put(RETURN, Immediate::None, 0);
        }
    }
    pen.code.push(0x0b);
    pen.flat.push(b')');
    pen.fold(")");
}

/// Puts what stands in front of the instructions: the type, the parameters and the locals.
fn put_head(alloc: Global, pen: &mut Pen, shape: Shape, scope: Scope) {
    let mut head = Sheet::new(alloc);
    head.put(b" (type ");
    put_decimal(&mut head, u64::from(shape.type_index));
    head.push(b')');
    put_signature(&mut head, shape);
    put_named_signature(&mut pen.named, shape);
    put_locals(&mut pen.code, &mut head, &mut pen.named, shape, scope);
    pen.flat.append(&head);
    pen.folded.append(&head);
}

/// Draws a function of so many statements. What a linker fills in takes five bytes where that is asked for.
pub fn draw(
    alloc: Global,
    draws: &mut Draws,
    callees: u32,
    set_globals: u32,
    statements: u32,
    padded: bool,
) -> Drawn {
    let shape = shape_of(draws.below(crate::shape::TYPES));
    let more = 2 + draws.below(3 + statements / 6);
    let scope = Scope {
        callees,
        locals: shape.params.saturating_add(more),
        set_globals,
    };
    let mut pen = Pen::new(alloc, padded);
    put_head(alloc, &mut pen, shape, scope);
    put_body(&mut pen, draws, scope, shape, statements);
    with_size(alloc, shape, pen)
}

/// What was drawn, with its size in front.
fn with_size(alloc: Global, shape: Shape, pen: Pen) -> Drawn {
    let mut code = Sheet::new(alloc);
    put_unsigned(&mut code, pen.code.len() as u64);
    code.append(&pen.code);
    Drawn {
        type_index: shape.type_index,
        code,
        flat: pen.flat,
        folded: pen.folded,
        named: pen.named,
    }
}
