//! What follows an opcode (Core 1.0, 5.4; Core 2.0 for block types).

ghost use Rattle.std.specs.Prelude.{◌≡◌};
ghost use Rattle.wc_ops.specs.declared.op.Op.TheVariants as ops;
ghost use Rattle.wc_binary.specs.Standard.Instructions.{follows, zero_byte as zero_byte_phrase, head_of};
ghost use Rattle.wc_binary.specs.Standard.Instructions.{headed, block_type as block_type_phrase};
ghost use Rattle.wc_binary.specs.Reading.Source.{Gives};
ghost use Rattle.wc_binary.specs.Standard.Values.{u32 as u32_phrase};

use crate::decoder::byte::{ByteTable, any_byte, only};
use crate::decoder::from_source::FromSource;
use crate::decoder::integer::u32;
use crate::decoder::signed::{s32, s64, signed_from};
use crate::decoder::vector::times;
use crate::fault::{BinFault, BinWhy, bad};
use crate::source::Source;
use std::alloc::Global;
use wc_ast::{BlockType, IndexOp, Instr, Labels, List, MemArg, MemOp, SimpleOp, ValType};

impl FromSource for u32 {
    ghost phrase = { u32_phrase };

    fn read<S: Source>(_alloc: Global, source: &mut S) -> Result<u32, BinFault> {
        u32(source)
    }
}

fn zero_byte<S: Source>(source: &mut S) -> Result<(), BinFault>
    ensures { Gives zero_byte_phrase (S.input source.old) (S.input source.new) result }
{
    only(0x00, BinWhy::ZeroByte, source)
}

/// An instruction without immediates.
#[inline(always)]
#[tactic(auto, unfolding(crate::specs::Standard::Instructions::follows))]
pub fn simple<S: Source>(op: SimpleOp, source: &mut S) -> Result<Instr<'static>, BinFault>
    ensures { Gives (follows (ops.Simple op)) (S.input source.old) (S.input source.new) result }
{
    if matches!(op, SimpleOp::MemorySize | SimpleOp::MemoryGrow) {
        zero_byte(source)?;
    }
    Ok(Instr::Simple(op))
}

/// An instruction with an index.
#[inline(always)]
#[tactic(auto, unfolding(crate::specs::Standard::Instructions::follows))]
pub fn index<S: Source>(op: IndexOp, source: &mut S) -> Result<Instr<'static>, BinFault>
    ensures { Gives (follows (ops.Index op)) (S.input source.old) (S.input source.new) result }
{
    Ok(Instr::Index(op, u32(source)?))
}

/// A load or a store.
#[inline(always)]
#[tactic(auto, unfolding(crate::specs::Standard::Instructions::follows))]
pub fn memory<S: Source>(op: MemOp, source: &mut S) -> Result<Instr<'static>, BinFault>
    ensures { Gives (follows (ops.Mem op)) (S.input source.old) (S.input source.new) result }
{
    let align = u32(source)?;
    let offset = u32(source)?;
    Ok(Instr::Mem(op, MemArg { align, offset }))
}

/// A `br_table`. Its labels go into this list, to which the instruction refers.
#[tactic(auto, unfolding(crate::specs::Standard::Instructions::follows, crate::specs::Standard::Values::vector))]
pub fn br_table<'a, S: Source>(
    alloc: Global,
    labels: &'a mut List<u32>,
    source: &mut S,
) -> Result<Instr<'a>, BinFault>
    ensures { Gives (follows ops.BrTable) (S.input source.old) (S.input source.new) result }
{
    let count = u32(source)?;
    *labels = times(alloc, count, source)?;
    let default = u32(source)?;
    match Labels::of(labels.as_slice()) {
        Some(labels) => Ok(Instr::BrTable(default, labels)),
        None => unreachable!(),
    }
}

/// A `call_indirect`.
#[tactic(auto, unfolding(crate::specs::Standard::Instructions::follows))]
pub fn call_indirect<S: Source>(source: &mut S) -> Result<Instr<'static>, BinFault>
    ensures { Gives (follows ops.CallIndirect) (S.input source.old) (S.input source.new) result }
{
    let ty = u32(source)?;
    zero_byte(source)?;
    Ok(Instr::CallIndirect(ty))
}

/// An `i32.const`.
#[tactic(auto, unfolding(crate::specs::Standard::Instructions::follows))]
pub fn i32_const<S: Source>(source: &mut S) -> Result<Instr<'static>, BinFault>
    ensures { Gives (follows ops.I32Const) (S.input source.old) (S.input source.new) result }
{
    Ok(Instr::I32Const(s32(source)?))
}

/// An `i64.const`.
#[tactic(auto, unfolding(crate::specs::Standard::Instructions::follows))]
pub fn i64_const<S: Source>(source: &mut S) -> Result<Instr<'static>, BinFault>
    ensures { Gives (follows ops.I64Const) (S.input source.old) (S.input source.new) result }
{
    Ok(Instr::I64Const(s64(source)?))
}

fn short_type(byte: u8) -> Result<BlockType, BinWhy>
    ensures { head_of byte ≡ headed result }
{
    match byte {
        0x40 => Ok(BlockType::Empty),
        _ => Ok(BlockType::Value(<ValType as ByteTable>::of_byte(byte)?)),
    }
}

/// A block type.
#[tactic(auto, unfolding(crate::specs::Standard::Instructions::block_type))]
pub fn block_type<S: Source>(source: &mut S) -> Result<BlockType, BinFault>
    ensures { Gives block_type_phrase (S.input source.old) (S.input source.new) result }
{
    let at = source.place();
    let first = any_byte(source)?;
    if (0x40..0x80).contains(&first) {
        return match short_type(first) {
            Ok(short) => Ok(short),
            Err(why) => Err(bad(at, why)),
        };
    }
    let index = signed_from::<33, S>(at, first, source)?;
    if index < 0 {
        return Err(bad(at, BinWhy::WrongType));
    }
    Ok(BlockType::Index(index as u32))
}
