//! Types (Core 1.0, 6.4).

ghost use Rattle.std.specs.Prelude.{◌≡◌, ◌∷◌, [], ◌++◌, ℕ, true, List as Seq, codes, map, replicate};
ghost use Rattle.wc_print.specs.Standard.Printed.{word, next, opening, closing, after, printed};
ghost use Rattle.wc_print.specs.Standard.Printable.{is_word};
ghost use Rattle.wc_print.specs.Standard.Going.{Puts, Leaves};
ghost use Rattle.wc_print.specs.Standard.Lines.{type_item, type_use_items};
ghost use Rattle.wc_print.specs.Standard.Layout.{values_items, type_items, limits_items, global_type_items};
ghost use Rattle.wc_ast.specs.Standard.LocalGroups.{written_out};

use crate::field::Field;
use crate::numbers::put_number;
use crate::sink::Sink;
use wc_ast::{FuncType, GlobalType, Group, Limits, LocalsRef, ValType};

fn value_text(value_type: ValType) -> &'static str
    ensures { result.now ≡ printed (type_item value_type ∷ []) }
{
    match value_type {
        ValType::I32 => " i32",
        ValType::I64 => " i64",
    }
}

fn put_value_type<S: Sink>(out: &mut S, value_type: ValType)
    ensures { Puts S.Has (type_item value_type ∷ []) out.old out.new }
{
    out.put(value_text(value_type).as_bytes());
}

/// The result of a block.
pub fn put_result<S: Sink>(out: &mut S, value_type: ValType)
    ensures { let items = after opening ∷ next (word (codes "result")) ∷ type_item value_type ∷ next closing ∷ [] in
        Puts S.Has items out.old out.new }
{
    out.put(b" (result");
    put_value_type(out, value_type);
    out.put(b")");
}

/// A type by its index.
pub fn put_type_use<S: Sink>(out: &mut S, index: u32)
    ensures { Puts S.Has (type_use_items index) out.old out.new }
{
    out.put(b" (type");
    put_number(out, index);
    out.put(b")");
}

/// The types of parameters or results, if there are any.
fn put_values<S: Sink>(out: &mut S, head: &'static str, value_types: &[ValType])
    ensures { (w : Seq ℕ) → head.now ≡ printed (after opening ∷ next (word w) ∷ []) → is_word w ≡ true
        → Puts S.Has (values_items w value_types.now) out.old out.new }
{
    if value_types.is_empty() {
        return;
    }
    out.put(head.as_bytes());
    for value_type in value_types {
        put_value_type(out, *value_type);
    }
    out.put(b")");
}

/// A type sixteen times.
fn sixteen_text(value_type: ValType) -> &'static str
    ensures { result.now ≡ printed (map type_item (replicate 16 value_type)) }
{
    match value_type {
        ValType::I32 => " i32 i32 i32 i32 i32 i32 i32 i32 i32 i32 i32 i32 i32 i32 i32 i32",
        ValType::I64 => " i64 i64 i64 i64 i64 i64 i64 i64 i64 i64 i64 i64 i64 i64 i64 i64",
    }
}

fn put_sixteen<S: Sink>(out: &mut S, value_type: ValType)
    ensures { Puts S.Has (map type_item (replicate 16 value_type)) out.old out.new }
{
    out.put(sixteen_text(value_type).as_bytes());
}

/// Locals of one type by sixteens, and how many are left.
fn put_sixteens<S: Sink>(out: &mut S, group: Group) -> u32
    ensures { Leaves S.Has (map type_item (replicate result group.value_type))
        (map type_item (replicate group.count group.value_type)) out.new out.old }
{
    let mut left = group.count;
    while left >= 16 {
        put_sixteen(out, group.value_type);
        left -= 16;
    }
    left
}

/// So many locals of one type, one by one.
fn put_few<S: Sink>(out: &mut S, value_type: ValType, count: u32)
    ensures { Puts S.Has (map type_item (replicate count value_type)) out.old out.new }
{
    let mut left = count;
    while left > 0 {
        put_value_type(out, value_type);
        left -= 1;
    }
}

/// So many locals of one type.
fn put_group<S: Sink>(out: &mut S, group: Group)
    ensures { Puts S.Has (map type_item (replicate group.count group.value_type)) out.old out.new }
{
    let left = put_sixteens(out, group);
    put_few(out, group.value_type, left);
}

fn put_groups<S: Sink>(out: &mut S, groups: &[Group])
    ensures { Puts S.Has (map type_item (written_out groups.now)) out.old out.new }
{
    for group in groups {
        put_group(out, *group);
    }
}

/// The declared locals, if there are any.
pub fn put_locals<S: Sink>(out: &mut S, locals: &LocalsRef<'_>)
    ensures { Puts S.Has (values_items (codes "local") locals.now) out.old out.new }
{
    if locals.len() == 0 {
        return;
    }
    out.put(b" (local");
    put_groups(out, locals.groups());
    out.put(b")");
}

impl Field for FuncType {
    ghost items = { type_items };

    fn put<S: Sink>(&self, out: &mut S) {
        out.put(b"\n  (type (func");
        put_values(out, " (param", self.params.as_slice());
        put_values(out, " (result", self.results.as_slice());
        out.put(b"))");
    }
}

/// The limits of a table or a memory.
pub fn put_limits<S: Sink>(out: &mut S, limits: Limits)
    ensures { Puts S.Has (limits_items limits) out.old out.new }
{
    put_number(out, limits.min);
    match limits.max {
        Some(max) => put_number(out, max),
        None => {}
    }
}

/// The type of a global.
pub fn put_global_type<S: Sink>(out: &mut S, ty: GlobalType)
    ensures { Puts S.Has (global_type_items ty.mutable ty.ty) out.old out.new }
{
    if !ty.mutable {
        return put_value_type(out, ty.ty);
    }
    out.put(b" (mut");
    put_value_type(out, ty.ty);
    out.put(b")");
}
