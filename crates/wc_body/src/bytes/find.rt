//! The entry that bytes begin with (Core 1.0, 5.4; Core 2.0 for block types).

ghost use Rattle.std.specs.Prelude.{◌≡◌, option_map};
ghost use Rattle.wc_body.specs.Reading.Fronts.{seen, behind_labels, behind_byte, simple_front, index_front};
ghost use Rattle.wc_body.specs.Reading.Fronts.{memory_front, table_front, call_indirect_front, i32_front, i64_front};
ghost use Rattle.wc_body.specs.Reading.Fronts.{type_index_front, block_type_front, begin_front, known_front};
ghost use Rattle.wc_body.specs.Reading.Fronts.{meant_front, entry_front};

use crate::bytes::number::{i32_at, i33_at, i64_at, u32_at};
use crate::entry::{Entry, Kind};
use crate::instr::{BlockType, Instr, MemArg};
use crate::labels::{Items, Labels};
use wc_ops::{IndexOp, MemOp, Op, OpByte, SimpleOp, ValType};

/// What follows one byte.
#[inline(always)]
pub(crate) fn behind_byte(bytes: &[u8]) -> Option<&[u8]>
    ensures { option_map (λ rest. rest.now) result ≡ behind_byte bytes.now }
{
    let (_, rest) = bytes.split_first()?;
    Some(rest)
}

/// What follows so many labels.
fn behind_labels(count: u32, bytes: &[u8]) -> Option<&[u8]>
    ensures { option_map (λ rest. rest.now) result ≡ behind_labels count bytes.now }
{
    let mut rest = bytes;
    for _ in 0..count {
        let (_, behind) = u32_at(rest)?;
        rest = behind;
    }
    Some(rest)
}

#[inline(always)]
fn simple_at(op: SimpleOp, bytes: &[u8]) -> Option<(Entry<'_>, &[u8])>
    ensures { option_map seen result ≡ simple_front op bytes.now }
{
    let mut rest = bytes;
    if matches!(op, SimpleOp::MemorySize | SimpleOp::MemoryGrow) {
        rest = behind_byte(bytes)?;
    }
    Some((Entry::Plain(Instr::Simple(op)), rest))
}

#[inline(always)]
fn index_at(op: IndexOp, bytes: &[u8]) -> Option<(Entry<'_>, &[u8])>
    ensures { option_map seen result ≡ index_front op bytes.now }
{
    let (index, rest) = u32_at(bytes)?;
    Some((Entry::Plain(Instr::Index(op, index)), rest))
}

#[inline(always)]
fn memory_at(op: MemOp, bytes: &[u8]) -> Option<(Entry<'_>, &[u8])>
    ensures { option_map seen result ≡ memory_front op bytes.now }
{
    let (align, rest) = u32_at(bytes)?;
    let (offset, rest) = u32_at(rest)?;
    Some((Entry::Plain(Instr::Mem(op, MemArg { align, offset })), rest))
}

fn table_at(bytes: &[u8]) -> Option<(Entry<'_>, &[u8])>
    ensures { option_map seen result ≡ table_front bytes.now }
{
    let (count, labels) = u32_at(bytes)?;
    let behind = behind_labels(count, labels)?;
    let (default, rest) = u32_at(behind)?;
    let labels = Labels::from_items(Items::Spelled(count, labels));
    Some((Entry::Plain(Instr::BrTable(default, labels)), rest))
}

fn call_indirect_at(bytes: &[u8]) -> Option<(Entry<'_>, &[u8])>
    ensures { option_map seen result ≡ call_indirect_front bytes.now }
{
    let (ty, rest) = u32_at(bytes)?;
    Some((Entry::Plain(Instr::CallIndirect(ty)), behind_byte(rest)?))
}

#[inline(always)]
fn i32_const_at(bytes: &[u8]) -> Option<(Entry<'_>, &[u8])>
    ensures { option_map seen result ≡ i32_front bytes.now }
{
    let (n, rest) = i32_at(bytes)?;
    Some((Entry::Plain(Instr::I32Const(n)), rest))
}

#[inline(always)]
fn i64_const_at(bytes: &[u8]) -> Option<(Entry<'_>, &[u8])>
    ensures { option_map seen result ≡ i64_front bytes.now }
{
    let (n, rest) = i64_at(bytes)?;
    Some((Entry::Plain(Instr::I64Const(n)), rest))
}

fn type_index_at(bytes: &[u8]) -> Option<(BlockType, &[u8])>
    ensures { option_map seen result ≡ type_index_front bytes.now }
{
    let (index, rest) = i33_at(bytes)?;
    if index < 0 {
        return None;
    }
    Some((BlockType::Index(index as u32), rest))
}

/// The block type that the bytes begin with, and what follows it.
pub(crate) fn block_type_at(bytes: &[u8]) -> Option<(BlockType, &[u8])>
    ensures { option_map seen result ≡ block_type_front bytes.now }
{
    let (first, rest) = bytes.split_first()?;
    match *first {
        0x40 => Some((BlockType::Empty, rest)),
        byte => match ValType::of_byte(byte) {
            Some(ty) => Some((BlockType::Value(ty), rest)),
            None => type_index_at(bytes),
        },
    }
}

#[inline(always)]
fn begin_at(kind: Kind, bytes: &[u8]) -> Option<(Entry<'_>, &[u8])>
    ensures { option_map seen result ≡ begin_front kind bytes.now }
{
    let (block_type, rest) = block_type_at(bytes)?;
    Some((Entry::Begin(kind, block_type), rest))
}

/// The entry of an instruction whose opcode stands before these bytes, and what follows it.
#[inline(always)]
fn known_at(op: Op, bytes: &[u8]) -> Option<(Entry<'_>, &[u8])>
    ensures { option_map seen result ≡ known_front op bytes.now }
{
    match op {
        Op::Simple(op) => simple_at(op, bytes),
        Op::Index(op) => index_at(op, bytes),
        Op::Mem(op) => memory_at(op, bytes),
        Op::BrTable => table_at(bytes),
        Op::CallIndirect => call_indirect_at(bytes),
        Op::I32Const => i32_const_at(bytes),
        Op::I64Const => i64_const_at(bytes),
        Op::Block => begin_at(Kind::Block, bytes),
        Op::Loop => begin_at(Kind::Loop, bytes),
        Op::If => begin_at(Kind::If, bytes),
    }
}

#[inline(always)]
fn meant_at(meaning: OpByte, byte: u8, bytes: &[u8]) -> Option<(Entry<'_>, &[u8])>
    ensures { option_map seen result ≡ meant_front meaning byte bytes.now }
{
    match meaning {
        OpByte::Known(op) => known_at(op, bytes),
        OpByte::Float => None,
        OpByte::Unknown => match byte {
            0x05 => Some((Entry::Else, bytes)),
            0x0b => Some((Entry::End, bytes)),
            _ => None,
        },
    }
}

/// The entry that the bytes begin with, and what follows it.
#[inline(always)]
#[tactic(auto, unfolding(crate::specs::Reading::Fronts::entry_front))]
pub(crate) fn entry_at(bytes: &[u8]) -> Option<(Entry<'_>, &[u8])>
    ensures { option_map seen result ≡ entry_front bytes.now }
{
    let (byte, rest) = bytes.split_first()?;
    meant_at(Op::of_byte(*byte), *byte, rest)
}
