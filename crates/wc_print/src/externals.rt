//! Imports and exports (Core 1.0, 6.6.4 and 6.6.9).

ghost use Rattle.std.specs.Prelude.{◌≡◌, ◌∷◌, []};
ghost use Rattle.std.specs.List.{flat_map};
ghost use Rattle.wc_print.specs.Standard.Printed.{next, opening, after, word, printed};
ghost use Rattle.wc_print.specs.Standard.Going.{Puts};
ghost use Rattle.wc_print.specs.Standard.Layout.{desc_items, import_items, kind_word, export_items};

use crate::numbers::put_number;
use crate::short::{is_short_export, is_short_import, put_short_export, put_short_import};
use crate::sink::Sink;
use crate::strings::put_string;
use crate::types::{put_global_type, put_limits, put_type_use};
use wc_ast::{Desc, ExportKind, ExportRef, Exports, ImportRef, Imports};

/// What is imported.
fn put_desc<S: Sink>(out: &mut S, desc: Desc)
    ensures { Puts S.Has (desc_items desc) out.old out.new }
{
    match desc {
        Desc::Func(index) => {
            out.put(b" (func");
            put_type_use(out, index);
            out.put(b")");
        }
        Desc::Table(limits) => {
            out.put(b" (table");
            put_limits(out, limits);
            out.put(b" funcref)");
        }
        Desc::Memory(limits) => {
            out.put(b" (memory");
            put_limits(out, limits);
            out.put(b")");
        }
        Desc::Global(ty) => {
            out.put(b" (global");
            put_global_type(out, ty);
            out.put(b")");
        }
    }
}

fn put_import<S: Sink>(out: &mut S, import: &ImportRef<'_>)
    ensures { Puts S.Has (import_items import.now) out.old out.new }
{
    let module = import.module().as_bytes();
    let name = import.name().as_bytes();
    if let Desc::Func(index) = import.desc() {
        if is_short_import(module, name, index) {
            return put_short_import(out, module, name, index);
        }
    }
    out.put(b"\n  (import");
    put_string(out, module);
    put_string(out, name);
    put_desc(out, import.desc());
    out.put(b")");
}

/// The imports.
// The loop stays apart, so that no other takes registers from it.
#[inline(never)]
pub fn put_imports<S: Sink>(out: &mut S, imports: &Imports)
    ensures { Puts S.Has (flat_map import_items imports.now) out.old out.new }
{
    let mut left = imports.iter();
    while let Some(import) = left.next() {
        put_import(out, &import);
    }
}

fn kind_text(kind: ExportKind) -> &'static str
    ensures { result.now ≡ printed (after opening ∷ next (word (kind_word kind)) ∷ []) }
{
    match kind {
        ExportKind::Func => " (func",
        ExportKind::Table => " (table",
        ExportKind::Memory => " (memory",
        ExportKind::Global => " (global",
    }
}

fn put_export<S: Sink>(out: &mut S, export: &ExportRef<'_>)
    ensures { Puts S.Has (export_items export.now) out.old out.new }
{
    let name = export.name().as_bytes();
    let kind = export.kind();
    let index = export.index();
    if let ExportKind::Func = kind {
        if is_short_export(name, index) {
            return put_short_export(out, name, index);
        }
    }
    out.put(b"\n  (export");
    put_string(out, name);
    out.put(kind_text(kind).as_bytes());
    put_number(out, index);
    out.put(b"))");
}

/// The exports.
// The loop stays apart, so that no other takes registers from it.
#[inline(never)]
pub fn put_exports<S: Sink>(out: &mut S, exports: &Exports)
    ensures { Puts S.Has (flat_map export_items exports.now) out.old out.new }
{
    let mut left = exports.iter();
    while let Some(export) = left.next() {
        put_export(out, &export);
    }
}
