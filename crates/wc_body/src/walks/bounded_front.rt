//! The entry that bytes begin with, where it is one whose bytes have a bound (Core 1.0, 5.4).

ghost use Rattle.std.specs.Prelude.{◌≡◌, Some, IfSome};
ghost use Rattle.wc_ops.specs.declared.op.Op.TheVariants as ops;
ghost use Rattle.wc_body.specs.Reading.Fronts.{begin_front, known_front, entry_front};
ghost use Rattle.wc_body.specs.Standard.Walks.Bounded.{bounded};

use crate::bytes::find::{behind_byte, block_type_at};
use crate::bytes::number::{i32_in_place, i64_in_place, u32_at, u32_in_place};
use crate::entry::Kind;
use crate::instr::MemArg;
use crate::walks::bounded::Bounded;
use wc_ops::{IndexOp, MemOp, Op, OpByte, SimpleOp};

#[inline(always)]
fn simple_at(op: SimpleOp, bytes: &[u8]) -> Option<(Bounded, &[u8])>
    ensures { IfSome result (λ f. known_front (ops.Simple op) bytes.now ≡ Some (bounded f.0, f.1.now)) }
{
    let mut rest = bytes;
    if matches!(op, SimpleOp::MemorySize | SimpleOp::MemoryGrow) {
        rest = behind_byte(bytes)?;
    }
    Some((Bounded::Simple(op), rest))
}

#[inline(always)]
fn index_at(op: IndexOp, bytes: &[u8]) -> Option<(Bounded, &[u8])>
    ensures { IfSome result (λ f. known_front (ops.Index op) bytes.now ≡ Some (bounded f.0, f.1.now)) }
{
    let (index, rest) = u32_in_place(bytes)?;
    Some((Bounded::Index(op, index), rest))
}

#[inline(always)]
fn memory_at(op: MemOp, bytes: &[u8]) -> Option<(Bounded, &[u8])>
    ensures { IfSome result (λ f. known_front (ops.Mem op) bytes.now ≡ Some (bounded f.0, f.1.now)) }
{
    let (align, rest) = u32_at(bytes)?;
    let (offset, rest) = u32_in_place(rest)?;
    Some((Bounded::Mem(op, MemArg { align, offset }), rest))
}

#[inline(always)]
fn call_indirect_at(bytes: &[u8]) -> Option<(Bounded, &[u8])>
    ensures { IfSome result (λ f. known_front ops.CallIndirect bytes.now ≡ Some (bounded f.0, f.1.now)) }
{
    let (index, rest) = u32_in_place(bytes)?;
    Some((Bounded::CallIndirect(index), behind_byte(rest)?))
}

#[inline(always)]
fn i32_const_at(bytes: &[u8]) -> Option<(Bounded, &[u8])>
    ensures { IfSome result (λ f. known_front ops.I32Const bytes.now ≡ Some (bounded f.0, f.1.now)) }
{
    let (n, rest) = i32_in_place(bytes)?;
    Some((Bounded::I32Const(n), rest))
}

#[inline(always)]
fn i64_const_at(bytes: &[u8]) -> Option<(Bounded, &[u8])>
    ensures { IfSome result (λ f. known_front ops.I64Const bytes.now ≡ Some (bounded f.0, f.1.now)) }
{
    let (n, rest) = i64_in_place(bytes)?;
    Some((Bounded::I64Const(n), rest))
}

#[inline(always)]
fn begin_at(kind: Kind, bytes: &[u8]) -> Option<(Bounded, &[u8])>
    ensures { IfSome result (λ f. begin_front kind bytes.now ≡ Some (bounded f.0, f.1.now)) }
{
    let (block_type, rest) = block_type_at(bytes)?;
    Some((Bounded::Begin(kind, block_type), rest))
}

#[inline(always)]
fn known_at(op: Op, bytes: &[u8]) -> Option<(Bounded, &[u8])>
    ensures { IfSome result (λ f. known_front op bytes.now ≡ Some (bounded f.0, f.1.now)) }
{
    match op {
        Op::Simple(op) => simple_at(op, bytes),
        Op::Index(op) => index_at(op, bytes),
        Op::Mem(op) => memory_at(op, bytes),
        Op::BrTable => None,
        Op::CallIndirect => call_indirect_at(bytes),
        Op::I32Const => i32_const_at(bytes),
        Op::I64Const => i64_const_at(bytes),
        Op::Block => begin_at(Kind::Block, bytes),
        Op::Loop => begin_at(Kind::Loop, bytes),
        Op::If => begin_at(Kind::If, bytes),
    }
}

/// The entry of a bound that the bytes begin with, and what follows it.
#[inline(always)]
pub(crate) fn bounded_at(bytes: &[u8]) -> Option<(Bounded, &[u8])>
    ensures { IfSome result (λ f. entry_front bytes.now ≡ Some (bounded f.0, f.1.now)) }
{
    let (byte, rest) = bytes.split_first()?;
    let OpByte::Known(op) = Op::of_byte(*byte) else {
        return None;
    };
    known_at(op, rest)
}
