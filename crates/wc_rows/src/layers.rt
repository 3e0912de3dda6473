//! What the layers below tell of a binary, whatever rules it breaks. What holds a module hands it on.

use crate::sheet::Sheet;
use std::alloc::AllocError;
use wc_ast::{Module, TryClone};
use wc_binary::{decode, encode};
use wc_print::print;

/// Tells the canonical bytes of a module.
fn tell_bytes(told: &mut Sheet, module: &Module) {
    match encode(told.alloc(), module) {
        Ok(bytes) => told.put(&bytes),
        Err(_) => told.note("the module has no bytes"),
    }
}

/// Tells the canonical bytes of a copy.
fn tell_copy(told: &mut Sheet, copy: Result<Module, AllocError>) {
    match copy {
        Ok(module) => tell_bytes(told, &module),
        Err(_) => told.refuse(),
    }
}

/// Tells the canonical bytes of a copy of what the input spells.
pub fn tell_spelled(told: &mut Sheet, input: &[u8]) {
    match decode(told.alloc(), input) {
        Ok(module) => tell_copy(told, module.try_clone()),
        Err(_) => told.note("the bytes spell no module"),
    }
}

/// Tells the printed text of a module.
fn tell_text(told: &mut Sheet, module: &Module) {
    match print(told.alloc(), module) {
        Ok(text) => told.put_text(text.as_str()),
        Err(_) => told.refuse(),
    }
}

/// Tells the printed text of what the input spells.
pub fn tell_printed(told: &mut Sheet, input: &[u8]) {
    match decode(told.alloc(), input) {
        Ok(module) => tell_text(told, &module),
        Err(_) => told.note("the bytes spell no module"),
    }
}
