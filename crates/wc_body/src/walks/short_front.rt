//! The short instruction that bytes begin with (Core 1.0, 5.4).

ghost use Rattle.std.specs.Prelude.{◌≡◌, Some, IfSome};
ghost use Rattle.wc_ops.specs.declared.op.Op.TheVariants as ops;
ghost use Rattle.wc_body.specs.declared.entry.Entry.TheVariants.{Plain as PlainEntry};
ghost use Rattle.wc_body.specs.Reading.Fronts.{known_front, entry_front};
ghost use Rattle.wc_body.specs.Standard.Walks.Short.{instruction};

use crate::walks::short::Short;
use wc_leb128::{signed_in_one, unsigned_in_one};
use wc_ops::{IndexOp, Op, OpByte, SimpleOp};

#[inline(always)]
fn simple_at(op: SimpleOp, bytes: &[u8]) -> Option<(Short, &[u8])>
    ensures { IfSome result
        (λ f. known_front (ops.Simple op) bytes.now ≡ Some (PlainEntry (instruction f.0), f.1.now)) }
{
    if matches!(op, SimpleOp::MemorySize | SimpleOp::MemoryGrow) {
        return None;
    }
    Some((Short::Simple(op), bytes))
}

#[inline(always)]
fn index_at(op: IndexOp, bytes: &[u8]) -> Option<(Short, &[u8])>
    ensures { IfSome result (λ f. known_front (ops.Index op) bytes.now ≡ Some (PlainEntry (instruction f.0), f.1.now)) }
{
    let (first, rest) = bytes.split_first()?;
    let index = unsigned_in_one(*first)?;
    Some((Short::Index(op, index), rest))
}

#[inline(always)]
fn i32_const_at(bytes: &[u8]) -> Option<(Short, &[u8])>
    ensures { IfSome result (λ f. known_front ops.I32Const bytes.now ≡ Some (PlainEntry (instruction f.0), f.1.now)) }
{
    let (first, rest) = bytes.split_first()?;
    let n = signed_in_one(*first)?;
    Some((Short::I32Const(n), rest))
}

#[inline(always)]
fn i64_const_at(bytes: &[u8]) -> Option<(Short, &[u8])>
    ensures { IfSome result (λ f. known_front ops.I64Const bytes.now ≡ Some (PlainEntry (instruction f.0), f.1.now)) }
{
    let (first, rest) = bytes.split_first()?;
    let n = signed_in_one(*first)?;
    Some((Short::I64Const(n), rest))
}

#[inline(always)]
fn known_at(op: Op, bytes: &[u8]) -> Option<(Short, &[u8])>
    ensures { IfSome result (λ f. known_front op bytes.now ≡ Some (PlainEntry (instruction f.0), f.1.now)) }
{
    match op {
        Op::Simple(op) => simple_at(op, bytes),
        Op::Index(op) => index_at(op, bytes),
        Op::I32Const => i32_const_at(bytes),
        Op::I64Const => i64_const_at(bytes),
        _ => None,
    }
}

/// The short instruction that the bytes begin with, and what follows it.
#[inline(always)]
pub(crate) fn short_at(bytes: &[u8]) -> Option<(Short, &[u8])>
    ensures { IfSome result (λ f. entry_front bytes.now ≡ Some (PlainEntry (instruction f.0), f.1.now)) }
{
    let (byte, rest) = bytes.split_first()?;
    let OpByte::Known(op) = Op::of_byte(*byte) else {
        return None;
    };
    known_at(op, rest)
}
