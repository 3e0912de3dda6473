//! The start function and the segments (Core 1.0, 6.6.10 to 6.6.12).

ghost use Rattle.std.specs.Prelude.{◌∷◌, [], ◌++◌};
ghost use Rattle.wc_print.specs.Standard.Printed.{next, closing};
ghost use Rattle.wc_print.specs.Standard.Going.{Puts};
ghost use Rattle.wc_print.specs.Standard.Lines.{number_items};
ghost use Rattle.wc_print.specs.Standard.Layout.{place_items, start_items, elem_items, data_items};

use crate::bodies::put_inline;
use crate::field::Field;
use crate::numbers::put_number;
use crate::sink::Sink;
use crate::strings::put_string;
use wc_ast::{Constant, Data, Elem};

/// The start function, if there is one.
pub fn put_start<S: Sink>(out: &mut S, start: Option<u32>)
    ensures { Puts S.Has (start_items start) out.old out.new }
{
    let Some(index) = start else {
        return;
    };
    out.put(b"\n  (start");
    put_number(out, index);
    out.put(b")");
}

/// Where a segment begins.
fn put_place<S: Sink>(out: &mut S, offset: &Constant)
    ensures { Puts S.Has (place_items offset.now) out.old out.new }
{
    out.put(b" (offset");
    put_inline(out, offset);
    out.put(b")");
}

/// Indices, each behind a space.
fn put_indices<S: Sink>(out: &mut S, indices: &[u32])
    ensures { Puts S.Has (number_items indices.now) out.old out.new }
{
    for index in indices {
        put_number(out, *index);
    }
}

impl Field for Elem {
    ghost items = { elem_items };

    fn put<S: Sink>(&self, out: &mut S) {
        out.put(b"\n  (elem");
        put_number(out, self.table);
        put_place(out, &self.offset);
        put_indices(out, self.funcs.as_slice());
        out.put(b")");
    }
}

impl Field for Data {
    ghost items = { data_items };

    fn put<S: Sink>(&self, out: &mut S) {
        out.put(b"\n  (data");
        put_number(out, self.memory);
        put_place(out, &self.offset);
        put_string(out, self.bytes.as_slice());
        out.put(b")");
    }
}
