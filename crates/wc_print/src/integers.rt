//! Lines of instructions that have integers, of whatever length, written on a page.

ghost use Rattle.std.specs.Prelude.{◌≡◌, ◌≤◌, ◌+◌, ◌∷◌, [], ◌++◌, Some, true, take};
ghost use Rattle.wc_ops.specs.Standard.Opcodes.{row, index, memory};
ghost use Rattle.wc_body.specs.declared.instr.Instr.{Instr};
ghost use Rattle.wc_body.specs.Standard.Nested.{plain};
ghost use Rattle.wc_body.specs.Standard.Walks.Numbered.{numbered};
ghost use Rattle.wc_print.specs.Standard.Printed.{below, after, word, number, integer};
ghost use Rattle.wc_print.specs.Standard.Printable.{is_word, Put};
ghost use Rattle.wc_print.specs.Standard.Lines.{offset_items, align_items, bytes_of};
ghost use Rattle.wc_print.specs.Writing.Places.{line_items};

use crate::digits::{write_few_digits, write_integer, write_natural, write_number, write_signed};
use crate::lines::{line_of, op_line};
use crate::pages::{PAGE, write_row};
use wc_ast::{IndexOp, MemArg, MemOp, Numbered, Op};

/// An alignment in bytes.
fn align_bytes(align: u32) -> u32
    ensures { result ≡ bytes_of align }
{
    match align {
        0 => 1,
        1 => 2,
        2 => 4,
        _ => 8,
    }
}

/// Writes an offset, unless it is zero, and says where it ends.
#[inline(always)]
fn write_offset(page: &mut [u8; PAGE], at: usize, offset: u32) -> usize
    requires { at + 30 ≤ 4096 }
    ensures end { result ≤ at + 29 }
    ensures put { Put (offset_items offset) (take at page.old) (take result page.new) }
{
    if offset == 0 {
        return at;
    }
    let end = write_row(page, at, b" offset=               \x08");
    write_natural(page, end, u64::from(offset))
}

/// Writes an alignment, unless it is the natural one, and says where it ends.
#[inline(always)]
fn write_align(page: &mut [u8; PAGE], at: usize, op: MemOp, align: u32) -> usize
    requires { at + 24 ≤ 4096 }
    ensures end { result ≤ at + 10 }
    ensures put { Put (align_items (memory op).alignment align) (take at page.old) (take result page.new) }
{
    if align == op.natural_alignment() {
        return at;
    }
    let end = write_row(page, at, b" align=                \x07");
    write_few_digits(page, end, align_bytes(align))
}

/// Writes what follows the name of a load or a store.
#[inline(always)]
pub fn write_memory(page: &mut [u8; PAGE], at: usize, op: MemOp, arg: MemArg) -> usize
    requires { at + 53 ≤ 4096 }
    ensures end { result ≤ at + 39 }
    ensures put { Put (offset_items arg.offset ++ align_items (memory op).alignment arg.align)
        (take at page.old) (take result page.new) }
{
    let end = write_offset(page, at, arg.offset);
    write_align(page, end, op, arg.align)
}

/// Writes the line of a load or a store.
#[inline(always)]
pub fn write_access(page: &mut [u8; PAGE], at: usize, op: MemOp, arg: MemArg) -> usize
    requires { at + 80 ≤ 4096 }
    ensures within { result ≤ 4096 }
    ensures put { let items = offset_items arg.offset ++ align_items (memory op).alignment arg.align in
        Put (below 4 (word (memory op).name) ∷ items) (take at page.old) (take result page.new) }
{
    let end = write_row(page, at, op_line(Op::Mem(op)));
    write_memory(page, end, op, arg)
}

/// Writes the line of an instruction that has an index.
#[inline(always)]
pub fn write_indexed(page: &mut [u8; PAGE], at: usize, op: IndexOp, n: u32) -> usize
    requires { at + 80 ≤ 4096 }
    ensures within { result ≤ 4096 }
    ensures put { Put (below 4 (word (index op).name) ∷ after (number n) ∷ [])
        (take at page.old) (take result page.new) }
{
    let end = write_row(page, at, op_line(Op::Index(op)));
    write_number(page, end, n)
}

/// Writes the line of an instruction that has a signed number.
#[inline(always)]
pub fn write_constant(page: &mut [u8; PAGE], at: usize, op: Op, n: i64) -> usize
    requires { at + 80 ≤ 4096 }
    ensures within { result ≤ 4096 }
    ensures put { is_word (row op).name ≡ true → Put (below 4 (word (row op).name) ∷ after (integer n) ∷ [])
        (take at page.old) (take result page.new) }
{
    let end = write_row(page, at, op_line(op));
    write_integer(page, end, n)
}

/// Writes the line of an instruction of one integer, by its opcode.
// No branch depends on whether the integer is an index or a constant, since it couldn't be foretold.
#[inline(always)]
pub fn write_numbered(page: &mut [u8; PAGE], at: usize, it: Numbered) -> usize
    requires { at + 80 ≤ 4096 }
    ensures within { result ≤ 4096 }
    ensures put { (instr : Instr) → numbered it ≡ Some instr
        → Put (line_items (plain instr)) (take at page.old) (take result page.new) }
{
    let end = write_row(page, at, line_of(it.opcode));
    write_signed(page, end, it.number)
}
