//! The types and the shapes of drawn functions.

use crate::names::put_local_name;
use crate::sheet::Sheet;
use crate::spelling::{put_content, put_unsigned};
use std::alloc::Global;

/// How many types each module has.
pub const TYPES: u32 = 12;

/// How many functions each module imports at least.
pub const LEAST_IMPORTS: u32 = 12;

/// A function's type: so many parameters of 32 bits, and whether it has a result of them.
#[derive(Clone, Copy)]
pub struct Shape {
    pub type_index: u32,
    pub params: u32,
    pub has_result: bool,
}

/// The shape of a type.
pub fn shape_of(type_index: u32) -> Shape {
    Shape {
        type_index,
        params: type_index / 2,
        has_result: type_index % 2 == 1,
    }
}

/// Puts `(param ..) (result ..)`.
pub fn put_signature(out: &mut Sheet, shape: Shape) {
    if shape.params > 0 {
        out.put(b" (param");
        for _ in 0..shape.params {
            out.put(b" i32");
        }
        out.push(b')');
    }
    if shape.has_result {
        out.put(b" (result i32)");
    }
}

/// Puts the parameters and the result with identifiers.
pub fn put_named_signature(out: &mut Sheet, shape: Shape) {
    for index in 0..shape.params {
        out.put(b" (param $");
        put_local_name(out, index);
        out.put(b" i32)");
    }
    if shape.has_result {
        out.put(b" (result i32)");
    }
}

/// Puts the types' section.
pub fn put_types(alloc: Global, out: &mut Sheet) {
    let mut content = Sheet::new(alloc);
    put_unsigned(&mut content, u64::from(TYPES));
    for index in 0..TYPES {
        let shape = shape_of(index);
        content.push(0x60);
        put_unsigned(&mut content, u64::from(shape.params));
        for _ in 0..shape.params {
            content.push(0x7f);
        }
        if shape.has_result {
            content.push(1);
            content.push(0x7f);
        } else {
            content.push(0);
        }
    }
    put_content(out, 1, &content, false);
}
