//! Instructions: a line for each, or all behind one another.

ghost use Rattle.std.specs.Prelude.{◌≡◌, ◌≤◌, ◌∷◌, [], ◌++◌, slice_index};
ghost use Rattle.wc_body.specs.Standard.Entries.{mark, begin_of};
ghost use Rattle.wc_body.specs.Standard.Nested.{flatten, plain};
ghost use Rattle.wc_ops.specs.Standard.Opcodes.{memory};
ghost use Rattle.wc_print.specs.Standard.Printed.{Printed, number, after, below, printed};
ghost use Rattle.wc_print.specs.Standard.Printable.{IsSpelled};
ghost use Rattle.wc_print.specs.Standard.Going.{Puts};
ghost use Rattle.wc_print.specs.Standard.Lines.{block_items, number_items, offset_items, align_items};
ghost use Rattle.wc_print.specs.Standard.Lines.{mark_items, told, expr_items};
ghost use Rattle.wc_print.specs.Writing.Places.{item_at};

use crate::integers::write_memory;
use crate::lines::{Row, head_line, op_line};
use crate::numbers::{put_integer, put_number};
use crate::pages::PAGE;
use crate::sink::Sink;
use crate::types::{put_result, put_type_use};
use wc_ast::{BlockType, Constant, Entry, Instr, Kind, Labels, MemArg, MemOp, Op};

/// Where an instruction stands.
#[derive(Clone, Copy)]
pub enum Place {
    /// On a line of its own.
    Line,
    /// Behind a space.
    Inline,
}

/// Puts a line, or the same behind a space in place of the line's end and four spaces.
#[inline(always)]
fn put_at<S: Sink>(out: &mut S, place: Place, row: &'static Row)
    requires { slice_index row.now 23 ≤ 23 }
    ensures { (p : Printed) → told row.now ≡ printed (below 4 p ∷ []) → IsSpelled p
        → Puts S.Has (item_at place p ∷ []) out.old out.new }
{
    let line = &row[..row[23] as usize];
    match place {
        Place::Line => out.put(line),
        Place::Inline => out.put(&line[line.len().min(4)..]),
    }
}

fn put_block_type<S: Sink>(out: &mut S, block_type: BlockType)
    ensures { Puts S.Has (block_items block_type) out.old out.new }
{
    match block_type {
        BlockType::Empty => {}
        BlockType::Value(value_type) => put_result(out, value_type),
        BlockType::Index(index) => put_type_use(out, index),
    }
}

/// The labels of a table, and its default.
fn put_labels<S: Sink>(out: &mut S, default: u32, labels: Labels<'_>)
    ensures { let items = number_items labels.entry ++ after (number default) ∷ [] in
        Puts S.Has items out.old out.new }
{
    let mut labels = labels;
    while let Some(label) = labels.next() {
        put_number(out, label);
    }
    put_number(out, default);
}

/// What follows the name of a load or a store.
fn put_memory<S: Sink>(out: &mut S, op: MemOp, arg: MemArg)
    ensures { let items = offset_items arg.offset ++ align_items (memory op).alignment arg.align in
        Puts S.Has items out.old out.new }
{
    let mut page = [0; PAGE];
    let end = write_memory(&mut page, 0, op, arg);
    out.put(&page[..end]);
}

#[inline(always)]
fn put_instr<S: Sink>(out: &mut S, place: Place, instr: Instr<'_>)
    ensures { Puts S.Has (mark_items (item_at place) (plain instr.entry)) out.old out.new }
{
    match instr {
        Instr::Simple(op) => put_at(out, place, op_line(Op::Simple(op))),
        Instr::Index(op, index) => {
            put_at(out, place, op_line(Op::Index(op)));
            put_number(out, index);
        }
        Instr::Mem(op, arg) => {
            put_at(out, place, op_line(Op::Mem(op)));
            put_memory(out, op, arg);
        }
        Instr::BrTable(default, labels) => {
            put_at(out, place, op_line(Op::BrTable));
            put_labels(out, default, labels);
        }
        Instr::CallIndirect(index) => {
            put_at(out, place, op_line(Op::CallIndirect));
            put_type_use(out, index);
        }
        Instr::I32Const(n) => {
            put_at(out, place, op_line(Op::I32Const));
            put_integer(out, i64::from(n));
        }
        Instr::I64Const(n) => {
            put_at(out, place, op_line(Op::I64Const));
            put_integer(out, n);
        }
    }
}

/// The head of a block, a loop or an if.
#[inline(always)]
fn put_head<S: Sink>(out: &mut S, place: Place, kind: Kind, block_type: BlockType)
    ensures { Puts S.Has (mark_items (item_at place) (begin_of kind block_type)) out.old out.new }
{
    put_at(out, place, head_line(kind));
    put_block_type(out, block_type);
}

#[inline(always)]
pub fn put_entry<S: Sink>(out: &mut S, place: Place, entry: Entry<'_>)
    ensures { Puts S.Has (mark_items (item_at place) (mark entry.entry)) out.old out.new }
{
    match entry {
        Entry::Plain(instr) => put_instr(out, place, instr),
        Entry::Begin(kind, block_type) => put_head(out, place, kind, block_type),
        Entry::Else => put_at(out, place, b"\n    else              \x09"),
        Entry::End => put_at(out, place, b"\n    end               \x08"),
    }
}

/// The instructions of a constant expression, on the line.
pub fn put_inline<S: Sink>(out: &mut S, constant: &Constant)
    ensures { Puts S.Has (expr_items constant.now) out.old out.new }
{
    let mut entries = constant.entries();
    while let Some(entry) = entries.next() {
        put_entry(out, Place::Inline, entry);
    }
}
