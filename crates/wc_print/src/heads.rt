//! The heads of functions. Most have an index of few digits and no locals, so they are written on the page, before the
//! lines of the instructions.

ghost use Rattle.std.specs.Prelude.{◌≤◌, ◌<◌, ◌+◌, [], ◌++◌, codes, take};
ghost use Rattle.wc_print.specs.Standard.Printable.{Put};
ghost use Rattle.wc_print.specs.Standard.Going.{Puts, Behind};
ghost use Rattle.wc_print.specs.Standard.Layout.{values_items};
ghost use Rattle.wc_print.specs.Writing.Short.{function_head};

use crate::digits::{LIMIT, write_index};
use crate::pages::{PAGE, write_row};
use crate::sink::Sink;
use crate::types::{put_locals, put_type_use};
use wc_ast::LocalsRef;

/// Writes a function's head on the page, from its beginning, and says where it ends.
#[inline(always)]
fn write_head(page: &mut [u8; PAGE], index: u32) -> usize
    requires { index < 1000000 }
    ensures end { result ≤ 22 }
    ensures put { Put (function_head index) [] (take result page.new) }
{
    let begin = write_row(page, 0, b"\n  (func (type         \x0e");
    let end = write_index(page, begin, index);
    page[end] = b')';
    end + 1
}

/// Begins a function of the type with this index, on the page if that is short, and says where the page's text ends.
#[inline(always)]
pub fn begin_func<S: Sink>(out: &mut S, page: &mut [u8; PAGE], index: u32) -> usize
    ensures room { result + 80 ≤ 4096 }
    ensures put { Puts (Behind S.Has) (function_head index) (out.old, []) (out.new, take result page.new) }
{
    if index < LIMIT {
        return write_head(page, index);
    }
    out.put(b"\n  (func");
    put_type_use(out, index);
    0
}

/// Puts a function's locals, if there are any, behind what is written on the page, and says where that ends then.
#[inline(always)]
pub fn put_locals_behind<S: Sink>(
    out: &mut S,
    page: &[u8; PAGE],
    at: usize,
    locals: &LocalsRef<'_>,
) -> usize
    requires { at + 80 ≤ 4096 }
    ensures room { result + 80 ≤ 4096 }
    ensures put { Puts (Behind S.Has) (values_items (codes "local") locals.now)
        (out.old, take at page.now) (out.new, take result page.now) }
{
    if locals.len() == 0 {
        return at;
    }
    out.put(&page[..at]);
    put_locals(out, locals);
    0
}
