//! The lines of a function's instructions. They are put together on a page before they are put behind the others, since
//! most are short.

ghost use Rattle.std.specs.Prelude.{◌≡◌, ◌≤◌, ◌<◌, ◌+◌, ◌∷◌, [], ◌++◌, Some, length, take, slice_index};
ghost use Rattle.std.specs.List.{flat_map};
ghost use Rattle.wc_body.specs.declared.entry.Entry.{Entry};
ghost use Rattle.wc_body.specs.Standard.Entries.{mark};
ghost use Rattle.wc_body.specs.Standard.Walks.Bounded.{bounded};
ghost use Rattle.wc_body.specs.Standard.Walks.Brief.{brief_entry};
ghost use Rattle.wc_print.specs.Standard.Printed.{below, closing};
ghost use Rattle.wc_print.specs.Standard.Printable.{Put};
ghost use Rattle.wc_print.specs.Standard.Going.{Puts, Behind};
ghost use Rattle.wc_print.specs.Standard.Lines.{told, body_items};
ghost use Rattle.wc_print.specs.Writing.Places.{line_items, LeavesLines};
ghost use Rattle.wc_print.specs.Writing.Briefly.{told_text};

use crate::bodies::{Place, put_entry};
use crate::integers::{write_access, write_constant, write_indexed, write_numbered};
use crate::lines::{Row, line_of, op_line};
use crate::operands::{Text, operand_text};
use crate::rows::copy_row;
use crate::sink::Sink;
use crate::typed_lines::{write_begin, write_call_indirect};
use wc_ast::{BodyRef, Bounded, Brief, Entries, Entry, Op};

/// How many bytes a page has.
pub const PAGE: usize = 4096;

/// The most bytes of a line that is written on a page, with what fills its rows.
const LINE: usize = 80;

/// Writes what a row tells, from a place on, and says where it ends. The whole row is written.
#[inline(always)]
pub fn write_row(page: &mut [u8; PAGE], at: usize, row: &'static Row) -> usize
    requires room { at + 24 ≤ 4096 }
    requires short { slice_index row.now 23 ≤ 23 }
    ensures end { result ≡ at + slice_index row.now 23 }
    ensures bytes { take result page.new ≡ take at page.old ++ told row.now }
{
    copy_row(page, at, row);
    at + row[23] as usize
}

/// Writes the text of an operand, from a place on, and says where it ends. The whole row is written.
#[inline(always)]
fn write_text(page: &mut [u8; PAGE], at: usize, text: &'static Text) -> usize
    requires room { at + 16 ≤ 4096 }
    requires short { slice_index text.now 15 ≤ 15 }
    ensures end { result ≡ at + slice_index text.now 15 }
    ensures bytes { take result page.new ≡ take at page.old ++ told_text text.now }
{
    copy_row(page, at, text);
    at + text[15] as usize
}

/// Writes the line of a brief entry.
// No branch depends on what the entry is, since it couldn't be foretold.
#[inline(always)]
fn write_brief(page: &mut [u8; PAGE], at: usize, brief: Brief) -> usize
    requires room { at + 80 ≤ 4096 }
    requires low { brief.operand < 128 }
    ensures within { result ≤ 4096 }
    ensures put { (entry : Entry) → brief_entry brief ≡ Some entry
        → Put (line_items (mark entry)) (take at page.old) (take result page.new) }
{
    let line = line_of(brief.opcode);
    let end = write_row(page, at, line);
    write_text(page, end, operand_text(line[22], brief.operand))
}

/// Puts what is written on the page if there is no room for another line, and says where the next one begins.
#[inline(always)]
fn turn<S: Sink>(out: &mut S, page: &[u8; PAGE], at: usize) -> usize
    requires { at ≤ 4096 }
    ensures room { result + 80 ≤ 4096 }
    ensures same { Puts (Behind S.Has) [] (out.old, take at page.now) (out.new, take result page.now) }
{
    if at + LINE <= PAGE {
        return at;
    }
    out.put(&page[..at]);
    0
}

/// The lines of the brief entries up to the first entry that isn't one, and where the next line begins.
#[inline(always)]
fn put_all_brief<S: Sink>(
    out: &mut S,
    page: &mut [u8; PAGE],
    from: usize,
    entries: &mut Entries<'_>,
) -> usize
    requires { from + 80 ≤ 4096 }
    ensures room { result + 80 ≤ 4096 }
    ensures puts { LeavesLines (Behind S.Has) entries.new entries.old
        (out.new, take result page.new) (out.old, take from page.old) }
    ensures fewer { length entries.new ≤ length entries.old }
{
    let mut at = from;
    while let Some(brief) = entries.next_brief() {
        let end = write_brief(page, at, brief);
        at = turn(out, page, end);
    }
    at
}

/// The lines of the brief entries and of the instructions of one integer up to the first entry that is neither, and
/// where the next line begins.
#[inline(always)]
fn put_all_numbered<S: Sink>(
    out: &mut S,
    page: &mut [u8; PAGE],
    from: usize,
    entries: &mut Entries<'_>,
) -> usize
    requires { from + 80 ≤ 4096 }
    ensures room { result + 80 ≤ 4096 }
    ensures puts { LeavesLines (Behind S.Has) entries.new entries.old
        (out.new, take result page.new) (out.old, take from page.old) }
    ensures fewer { length entries.new ≤ length entries.old }
{
    let mut at = from;
    'lines: loop {
        at = put_all_brief(out, page, at, entries);
        let Some(first) = entries.next_numbered() else {
            break;
        };
        let end = write_numbered(page, at, first);
        at = turn(out, page, end);
    }
    at
}

/// Writes the line of an entry whose bytes have a bound.
#[inline(always)]
fn write_bounded(page: &mut [u8; PAGE], at: usize, it: Bounded) -> usize
    requires { at + 80 ≤ 4096 }
    ensures within { result ≤ 4096 }
    ensures put { Put (line_items (mark (bounded it))) (take at page.old) (take result page.new) }
{
    match it {
        Bounded::Simple(op) => write_row(page, at, op_line(Op::Simple(op))),
        Bounded::Index(op, index) => write_indexed(page, at, op, index),
        Bounded::Mem(op, arg) => write_access(page, at, op, arg),
        Bounded::CallIndirect(index) => write_call_indirect(page, at, index),
        Bounded::I32Const(n) => write_constant(page, at, Op::I32Const, i64::from(n)),
        Bounded::I64Const(n) => write_constant(page, at, Op::I64Const, n),
        Bounded::Begin(kind, block_type) => write_begin(page, at, kind, block_type),
    }
}

/// The lines of the entries up to the first one that is no brief one, of one integer or of a bound, and where the next
/// line begins.
#[inline(always)]
fn put_all_bounded<S: Sink>(
    out: &mut S,
    page: &mut [u8; PAGE],
    from: usize,
    entries: &mut Entries<'_>,
) -> usize
    requires { from + 80 ≤ 4096 }
    ensures room { result + 80 ≤ 4096 }
    ensures puts { LeavesLines (Behind S.Has) entries.new entries.old
        (out.new, take result page.new) (out.old, take from page.old) }
    ensures fewer { length entries.new ≤ length entries.old }
{
    let mut at = from;
    'lines: loop {
        at = put_all_numbered(out, page, at, entries);
        let Some(first) = entries.next_bounded() else {
            break;
        };
        let end = write_bounded(page, at, first);
        at = turn(out, page, end);
    }
    at
}

/// Puts what is written on the page, and the line of an entry behind it: of a table of labels, which has no bound.
// Tables are few, so they stay out of the loop.
#[inline(never)]
fn put_behind<S: Sink>(out: &mut S, page: &[u8; PAGE], at: usize, entry: Entry<'_>)
    requires { at ≤ 4096 }
    ensures { Puts (Behind S.Has) (line_items (mark entry.entry)) (out.old, take at page.now) (out.new, []) }
{
    out.put(&page[..at]);
    put_entry(out, Place::Line, entry);
}

/// The instructions of a function, each on a line, and its end, behind what is written on the page.
pub fn put_lines<S: Sink>(out: &mut S, page: &mut [u8; PAGE], from: usize, body: &BodyRef<'_>)
    requires { from + 80 ≤ 4096 }
    ensures { Puts (Behind S.Has) (body_items body.now ++ below 2 closing ∷ [])
        (out.old, take from page.old) (out.new, []) }
{
    let mut entries = body.entries();
    let mut at = from;
    'lines: loop {
        at = put_all_bounded(out, page, at, &mut entries);
        let Some(entry) = entries.next() else {
            break;
        };
        put_behind(out, page, at, entry);
        at = 0;
    }
    let end = write_row(page, at, b"\n  )                   \x04");
    out.put(&page[..end]);
}
