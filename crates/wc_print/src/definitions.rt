//! Functions, tables, memories and globals (Core 1.0, 6.6.5 to 6.6.8).

ghost use Rattle.std.specs.List.{flat_map};
ghost use Rattle.wc_print.specs.Standard.Going.{Puts};
ghost use Rattle.wc_print.specs.Standard.Layout.{func_items, table_items, memory_items, global_items};

use crate::bodies::put_inline;
use crate::field::Field;
use crate::heads::{begin_func, put_locals_behind};
use crate::pages::{PAGE, put_lines};
use crate::sink::Sink;
use crate::types::{put_global_type, put_limits};
use wc_ast::{FuncRef, Funcs, Global, Limits};

fn put_func<S: Sink>(out: &mut S, page: &mut [u8; PAGE], func: &FuncRef<'_>)
    ensures { Puts S.Has (func_items func.now) out.old out.new }
{
    let head = begin_func(out, page, func.ty());
    let begin = put_locals_behind(out, page, head, func.locals());
    put_lines(out, page, begin, func.body());
}

/// The functions.
pub fn put_funcs<S: Sink>(out: &mut S, funcs: &Funcs)
    ensures { Puts S.Has (flat_map func_items funcs.now) out.old out.new }
{
    let mut page = [0; PAGE];
    let mut left = funcs.iter();
    while let Some(func) = left.next() {
        put_func(out, &mut page, &func);
    }
}

fn put_table<S: Sink>(out: &mut S, limits: Limits)
    ensures { Puts S.Has (table_items limits) out.old out.new }
{
    out.put(b"\n  (table");
    put_limits(out, limits);
    out.put(b" funcref)");
}

/// The tables, by their limits.
pub fn put_tables<S: Sink>(out: &mut S, tables: &[Limits])
    ensures { Puts S.Has (flat_map table_items tables.now) out.old out.new }
{
    for limits in tables {
        put_table(out, *limits);
    }
}

fn put_memory<S: Sink>(out: &mut S, limits: Limits)
    ensures { Puts S.Has (memory_items limits) out.old out.new }
{
    out.put(b"\n  (memory");
    put_limits(out, limits);
    out.put(b")");
}

/// The memories, by their limits.
pub fn put_memories<S: Sink>(out: &mut S, memories: &[Limits])
    ensures { Puts S.Has (flat_map memory_items memories.now) out.old out.new }
{
    for limits in memories {
        put_memory(out, *limits);
    }
}

impl Field for Global {
    ghost items = { global_items };

    fn put<S: Sink>(&self, out: &mut S) {
        out.put(b"\n  (global");
        put_global_type(out, self.ty);
        put_inline(out, &self.init);
        out.put(b")");
    }
}
