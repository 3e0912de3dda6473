//! Lines of what has a type by its index or a block type, written on a page.

ghost use Rattle.std.specs.Prelude.{◌≡◌, ◌≤◌, ◌+◌, ◌∷◌, [], take, slice_index};
ghost use Rattle.wc_ops.specs.declared.op.Op.TheVariants as ops;
ghost use Rattle.wc_ops.specs.Standard.Opcodes.{row};
ghost use Rattle.wc_body.specs.declared.instr.BlockType.TheVariants as block_types;
ghost use Rattle.wc_print.specs.Standard.Printed.{below, word, printed};
ghost use Rattle.wc_print.specs.Standard.Printable.{Put};
ghost use Rattle.wc_print.specs.Standard.Lines.{told, head_word, block_items, type_use_items};

use crate::digits::write_number;
use crate::lines::{Row, head_line, op_line};
use crate::pages::{PAGE, write_row};
use wc_ast::{BlockType, Kind, Op, ValType};

/// Writes a type by its index, and says where it ends.
#[inline(always)]
fn write_type_use(page: &mut [u8; PAGE], at: usize, index: u32) -> usize
    requires { at + 29 ≤ 4096 }
    ensures end { result ≤ at + 29 }
    ensures put { Put (type_use_items index) (take at page.old) (take result page.new) }
{
    let begin = write_row(page, at, b" (type                 \x06");
    let end = write_number(page, begin, index);
    page[end] = b')';
    end + 1
}

/// The result of a block.
#[inline(always)]
fn result_row(value_type: ValType) -> &'static Row
    ensures row { told result.now ≡ printed (block_items (block_types.Value value_type)) }
    ensures short { slice_index result.now 23 ≤ 23 }
{
    match value_type {
        ValType::I32 => b" (result i32)          \x0d",
        ValType::I64 => b" (result i64)          \x0d",
    }
}

/// Writes a block type, unless it is the empty one, and says where it ends.
#[inline(always)]
fn write_block_type(page: &mut [u8; PAGE], at: usize, block_type: BlockType) -> usize
    requires { at + 29 ≤ 4096 }
    ensures end { result ≤ at + 29 }
    ensures put { Put (block_items block_type) (take at page.old) (take result page.new) }
{
    match block_type {
        BlockType::Empty => at,
        BlockType::Value(value_type) => write_row(page, at, result_row(value_type)),
        BlockType::Index(index) => write_type_use(page, at, index),
    }
}

/// Writes the line of a call through a table.
#[inline(always)]
pub fn write_call_indirect(page: &mut [u8; PAGE], at: usize, index: u32) -> usize
    requires { at + 80 ≤ 4096 }
    ensures within { result ≤ 4096 }
    ensures put { Put (below 4 (word (row ops.CallIndirect).name) ∷ type_use_items index)
        (take at page.old) (take result page.new) }
{
    let end = write_row(page, at, op_line(Op::CallIndirect));
    write_type_use(page, end, index)
}

/// Writes the head of a block, a loop or an if.
#[inline(always)]
pub fn write_begin(page: &mut [u8; PAGE], at: usize, kind: Kind, block_type: BlockType) -> usize
    requires { at + 80 ≤ 4096 }
    ensures within { result ≤ 4096 }
    ensures put { Put (below 4 (word (head_word kind)) ∷ block_items block_type)
        (take at page.old) (take result page.new) }
{
    let end = write_row(page, at, head_line(kind));
    write_block_type(page, end, block_type)
}
