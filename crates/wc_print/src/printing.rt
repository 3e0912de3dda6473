//! Whole modules.

ghost use Rattle.wc_print.specs.Standard.Printed.{text};
ghost use Rattle.wc_print.specs.Standard.Printable.{IsPrintable};
ghost use Rattle.wc_print.specs.Standard.Going.{Says, Puts};
ghost use Rattle.wc_print.specs.Standard.Layout.{field_items, layout};

use crate::definitions::{put_funcs, put_memories, put_tables};
use crate::externals::{put_exports, put_imports};
use crate::field::put_all;
use crate::segments::put_start;
use crate::sink::Sink;
use wc_ast::Module;

/// The fields of a module.
fn put_fields<S: Sink>(out: &mut S, module: &Module)
    ensures { Puts S.Has (field_items «module».now) out.old out.new }
{
    put_all(out, module.types.as_slice());
    put_imports(out, &module.imports);
    put_funcs(out, &module.funcs);
    put_tables(out, module.tables.as_slice());
    put_memories(out, module.mems.as_slice());
    put_all(out, module.globals.as_slice());
    put_exports(out, &module.exports);
    put_start(out, module.start);
    put_all(out, module.elems.as_slice());
    put_all(out, module.datas.as_slice());
}

/// Puts the text of a module (Core 1.0, chapter 6), in the layout of `docs/FORMAT.md`. Every module has one, whatever
/// rule it breaks, and `printed_lexes` says which tokens it has.
pub fn put_module<S: Sink>(out: &mut S, module: &Module)
    ensures layout { Says S.Has (text (layout «module».now)) out.old out.new }
    ensures printable { IsPrintable (layout «module».now) }
{
    out.put(b"(module");
    put_fields(out, module);
    out.put(b"\n)\n");
}
