//! Inputs as texts.

use crate::binary::{export_count, global_count, is_mutable, table_end};
use crate::drawing::Drawn;
use crate::library::Library;
use crate::names::put_func_name;
use crate::plan::{Plan, funcs_of};
use crate::shape::{TYPES, put_signature, shape_of};
use crate::sheet::Sheet;
use crate::spelling::put_decimal;

/// How a text is written.
#[derive(Clone, Copy)]
pub enum Style {
    /// One instruction a line, as tools write them.
    Flat,
    /// Folded instructions, as tools write them.
    Folded,
    /// Folded instructions with identifiers everywhere, as people write them.
    Named,
}

fn put(out: &mut Sheet, text: &str) {
    out.put(text.as_bytes());
}

/// Puts the number that tools write behind a field's name, or an identifier.
fn put_label(out: &mut Sheet, style: Style, word: &str, index: u32) {
    match style {
        Style::Named => {
            put(out, " $");
            put(out, word);
            put_decimal(out, u64::from(index));
        }
        _ => {
            put(out, " (;");
            put_decimal(out, u64::from(index));
            put(out, ";)");
        }
    }
}

/// Puts the identifier of a function, or the number that tools write.
fn put_func_label(out: &mut Sheet, style: Style, index: u32) {
    match style {
        Style::Named => {
            put(out, " $");
            put_func_name(out, index);
        }
        _ => put_label(out, style, "", index),
    }
}

/// Puts a function as an index or by its identifier.
fn put_func_use(out: &mut Sheet, style: Style, index: u32) {
    match style {
        Style::Named => put_func_label(out, style, index),
        _ => {
            put(out, " ");
            put_decimal(out, u64::from(index));
        }
    }
}

/// Puts the types and the imports.
fn put_front(out: &mut Sheet, style: Style, library: &Library, plan: &Plan) {
    for index in 0..TYPES {
        put(out, "\n  (type");
        put_label(out, style, "type", index);
        put(out, " (func");
        put_signature(out, shape_of(index));
        put(out, "))");
    }
    for index in 0..plan.imports {
        put(out, "\n  (import \"env\" \"");
        out.put(library.name(index));
        put(out, "\" (func");
        put_func_label(out, style, index);
        put(out, " (type ");
        put_decimal(out, u64::from(index % TYPES));
        put(out, ")))");
    }
}

/// Puts the table, the memory and the globals.
fn put_declared(out: &mut Sheet, style: Style, plan: &Plan) {
    put(out, "\n  (table 100 funcref)\n  (memory 16)");
    for index in 0..global_count(plan.kind) {
        put(out, "\n  (global");
        put_label(out, style, "global", index);
        if is_mutable(plan.kind, index) {
            put(out, " (mut i32) (i32.const ");
        } else {
            put(out, " i32 (i32.const ");
        }
        put_decimal(out, u64::from(index) * 1000 + 66_560);
        put(out, "))");
    }
}

/// Puts the exports and the table's functions.
fn put_exports(out: &mut Sheet, style: Style, plan: &Plan) {
    put(out, "\n  (export \"memory\" (memory 0))");
    for index in 0..export_count(plan) {
        let func = plan.imports.saturating_add(index);
        put(out, "\n  (export \"");
        put_func_name(out, func);
        put(out, "\" (func");
        put_func_use(out, style, func);
        put(out, "))");
    }
    put(out, "\n  (elem (i32.const 1)");
    for index in plan.imports..table_end(plan) {
        put_func_use(out, style, index);
    }
    put(out, ")");
}

fn spelling_of(func: &Drawn, style: Style) -> &Sheet {
    match style {
        Style::Flat => &func.flat,
        Style::Folded => &func.folded,
        Style::Named => &func.named,
    }
}

/// Puts the functions.
fn put_funcs(out: &mut Sheet, style: Style, library: &Library, plan: &Plan) {
    let funcs = funcs_of(library, plan);
    let mut index = plan.imports;
    for pick in &plan.picks {
        if let Some(func) = funcs.get(*pick as usize) {
            put(out, "\n  (func");
            put_func_label(out, style, index);
            out.append(spelling_of(func, style));
        }
        index = index.wrapping_add(1);
    }
}

/// Puts one data segment, where there is data.
fn put_data(out: &mut Sheet, library: &Library, plan: &Plan) {
    if plan.chunks == 0 {
        return;
    }
    put(out, "\n  (data (i32.const 1024) \"");
    for index in 0..plan.chunks {
        if let Some(chunk) = library.chunks.get(index as usize % 64) {
            out.append(&chunk.text);
        }
    }
    put(out, "\")");
}

/// Puts the text of a plan behind what stands there.
pub fn put_text(out: &mut Sheet, style: Style, library: &Library, plan: &Plan) {
    put(out, "(module");
    put_front(out, style, library, plan);
    put_funcs(out, style, library, plan);
    put_declared(out, style, plan);
    put_exports(out, style, plan);
    put_data(out, library, plan);
    put(out, ")\n;; build ");
    put_decimal(out, plan.mark);
    put(out, "\n");
}
