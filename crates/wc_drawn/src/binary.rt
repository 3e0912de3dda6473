//! Inputs as bytes.

use crate::drawing::Drawn;
use crate::library::Library;
use crate::plan::{Fault, Kind, Plan, funcs_of};
use crate::shape::{TYPES, put_types};
use crate::sheet::Sheet;
use crate::spelling::{
    put_content, put_decimal, put_name, put_section, put_signed, put_size, put_unsigned,
};
use std::alloc::Global;

/// How many globals a module has.
pub fn global_count(kind: Kind) -> u32 {
    match kind {
        Kind::Script => 12,
        _ => 6,
    }
}

/// Whether the global of an index is mutable.
pub fn is_mutable(kind: Kind, index: u32) -> bool {
    match kind {
        Kind::Script => index % 2 == 1,
        _ => index == 0,
    }
}

/// The functions that the table has: those behind the imported ones, up to 64.
pub fn table_end(plan: &Plan) -> u32 {
    let count = u32::try_from(plan.picks.len()).unwrap_or(0).min(64);
    plan.imports.saturating_add(count)
}

/// How many exports of functions there are.
pub fn export_count(plan: &Plan) -> u32 {
    u32::try_from(plan.picks.len())
        .unwrap_or(0)
        .min(plan.exports)
}

fn put_imports(alloc: Global, out: &mut Sheet, library: &Library, plan: &Plan) {
    let mut content = Sheet::with_capacity(alloc, 4096);
    put_unsigned(&mut content, u64::from(plan.imports));
    for index in 0..plan.imports {
        put_name(&mut content, b"env");
        put_name(&mut content, library.name(index));
        content.push(0);
        put_unsigned(&mut content, u64::from(index % TYPES));
    }
    put_content(out, 2, &content, plan.padded);
}

/// Puts the types of the functions.
fn put_funcs(alloc: Global, out: &mut Sheet, library: &Library, plan: &Plan) {
    let mut content = Sheet::with_capacity(alloc, 4096);
    let funcs = funcs_of(library, plan);
    put_size(&mut content, plan.picks.len(), plan.padded);
    for pick in &plan.picks {
        let index = funcs.get(*pick as usize).map_or(0, |f| f.type_index);
        put_size(&mut content, index as usize, plan.padded);
    }
    put_content(out, 3, &content, plan.padded);
}

/// Puts the globals.
fn put_globals(alloc: Global, out: &mut Sheet, plan: &Plan) {
    let mut content = Sheet::with_capacity(alloc, 4096);
    let count = global_count(plan.kind);
    put_unsigned(&mut content, u64::from(count));
    for index in 0..count {
        content.push(0x7f);
        content.push(u8::from(is_mutable(plan.kind, index)));
        content.push(0x41);
        put_signed(&mut content, i64::from(index) * 1000 + 66_560);
        content.push(0x0b);
    }
    put_content(out, 6, &content, plan.padded);
}

/// Puts the types of the functions, the table, the memory and the globals.
fn put_declared(alloc: Global, out: &mut Sheet, library: &Library, plan: &Plan) {
    put_funcs(alloc, out, library, plan);
    put_section(out, 4, &[1, 0x70, 0, 0xe4, 0], plan.padded);
    put_section(out, 5, &[1, 0, 16], plan.padded);
    put_globals(alloc, out, plan);
}

/// Puts the exports.
fn put_exports(alloc: Global, out: &mut Sheet, library: &Library, plan: &Plan) {
    let mut content = Sheet::with_capacity(alloc, 4096);
    let count = export_count(plan);
    put_unsigned(&mut content, u64::from(count) + 1);
    put_name(&mut content, b"memory");
    content.put(&[2, 0]);
    for index in 0..count {
        let name = library.name(plan.imports.saturating_add(index));
        put_name(&mut content, name);
        content.push(0);
        put_unsigned(&mut content, u64::from(plan.imports) + u64::from(index));
    }
    put_content(out, 7, &content, plan.padded);
}

/// Puts the table's functions.
fn put_elements(alloc: Global, out: &mut Sheet, plan: &Plan) {
    let mut content = Sheet::with_capacity(alloc, 4096);
    content.put(&[1, 0, 0x41, 1, 0x0b]);
    let end = table_end(plan);
    put_unsigned(&mut content, u64::from(end.saturating_sub(plan.imports)));
    for index in plan.imports..end {
        put_unsigned(&mut content, u64::from(index));
    }
    put_content(out, 9, &content, plan.padded);
}

/// How many bytes the codes of the functions have.
fn codes_size(funcs: &[Drawn], plan: &Plan) -> usize {
    let mut size = 0usize;
    for pick in &plan.picks {
        if let Some(func) = funcs.get(*pick as usize) {
            size = size.saturating_add(func.code.len());
        }
    }
    size
}

/// Puts the codes of the functions.
fn put_codes(alloc: Global, out: &mut Sheet, library: &Library, plan: &Plan) {
    let funcs = funcs_of(library, plan);
    let mut front = Sheet::new(alloc);
    put_size(&mut front, plan.picks.len(), plan.padded);
    let size = front.len().saturating_add(codes_size(funcs, plan));
    out.push(10);
    put_size(out, size, plan.padded);
    out.append(&front);
    for pick in &plan.picks {
        if let Some(func) = funcs.get(*pick as usize) {
            out.append(&func.code);
        }
    }
    if let (Some(Fault::LastEnd), Some(end)) = (plan.fault, out.last_mut()) {
        *end = 0xff;
    }
}

/// What stands in front of the bytes of the data segment.
fn data_front(alloc: Global, plan: &Plan, size: usize) -> Sheet {
    let count = match plan.fault {
        Some(Fault::DataCount) => 2,
        _ => 1,
    };
    let mut front = Sheet::with_capacity(alloc, 4096);
    front.put(&[count, 0, 0x41]);
    put_signed(&mut front, 1024);
    front.push(0x0b);
    put_unsigned(&mut front, size as u64);
    front
}

/// Puts one data segment, where there is data.
fn put_data(alloc: Global, out: &mut Sheet, library: &Library, plan: &Plan) {
    let mut data = Sheet::new(alloc);
    for index in 0..plan.chunks {
        if let Some(chunk) = library.chunks.get(index as usize % 64) {
            data.append(&chunk.bytes);
        }
    }
    let front = data_front(alloc, plan, data.len());
    out.push(11);
    put_size(out, front.len().saturating_add(data.len()), plan.padded);
    out.append(&front);
    out.append(&data);
}

/// Puts a custom section that no other module has.
pub fn put_mark(alloc: Global, out: &mut Sheet, mark: u64) {
    let mut content = Sheet::with_capacity(alloc, 4096);
    put_name(&mut content, b"build");
    put_decimal(&mut content, mark);
    put_content(out, 0, &content, false);
}

/// Puts the module of a plan, with its fault, behind what stands there.
pub fn put_module(alloc: Global, out: &mut Sheet, library: &Library, plan: &Plan) {
    let version = match plan.fault {
        Some(Fault::Version) => 0xff,
        _ => 1,
    };
    out.put(b"\0asm");
    out.put(&[version, 0, 0, 0]);
    put_types(alloc, out);
    put_imports(alloc, out, library, plan);
    put_declared(alloc, out, library, plan);
    put_exports(alloc, out, library, plan);
    put_elements(alloc, out, plan);
    put_codes(alloc, out, library, plan);
    if plan.chunks > 0 {
        put_data(alloc, out, library, plan);
    }
    put_mark(alloc, out, plan.mark);
}
