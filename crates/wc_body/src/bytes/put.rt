//! Canonical bytes put behind others: all of an entry's, or none (Core 1.0, 5.4; Core 2.0 for block types).

ghost use Rattle.std.specs.Prelude.{◌≡◌, ◌<◌, ◌≤◌, ◌+◌, ◌++◌, ◌∷◌, [], length, take, OnOk, OnErr};
ghost use Rattle.std.specs.Prelude.{vec_len, vec_capacity};
ghost use Rattle.wc_leb128.specs.Writing.Bytes.{unsigned_bytes, signed_bytes, signed_of, group_of};
ghost use Rattle.wc_body.specs.Standard.ValueBytes.{value_type_bytes};
ghost use Rattle.wc_body.specs.Standard.InstructionBytes.{instr_bytes, block_type_bytes, FitsInstr, FitsBlockType};
ghost use Rattle.wc_body.specs.Writing.EntryBytes.{opening_bytes, entry_bytes};
ghost use Rattle.wc_body.specs.declared.entry.Entry.TheVariants.{Begin};
ghost use Rattle.wc_body.specs.declared.instr.Instr.TheVariants.{Simple, Index, Mem, BrTable, CallIndirect};
ghost use Rattle.wc_body.specs.declared.instr.Instr.TheVariants.{I32Const, I64Const};

use crate::entry::Kind;
use crate::instr::{BlockType, Instr, MemArg};
use crate::labels::Labels;
use std::alloc::AllocError;
use wc_leb128::{Leb, shortest_s, shortest_u};
use wc_ops::{IndexOp, MemOp, SimpleOp};

/// How many bytes an opcode has together with its integer, or with the two of an access of memory, at most.
pub(crate) const INTEGER_LIMIT: usize = 11;

/// Puts two bytes.
#[inline(always)]
fn put_two(bytes: &mut Vec<u8>, first: u8, second: u8) -> Result<(), AllocError>
    ensures ok { OnOk result (bytes.new.items ≡ bytes.old.items ++ first ∷ second ∷ []) }
    ensures err { OnErr result (bytes.new.items ≡ bytes.old.items) }
{
    bytes.reserve(2)?;
    bytes.push_reserved(first);
    bytes.push_reserved(second);
    Ok(())
}

/// Puts three bytes.
#[inline(always)]
fn put_three(bytes: &mut Vec<u8>, first: u8, second: u8, third: u8) -> Result<(), AllocError>
    ensures ok { OnOk result (bytes.new.items ≡ bytes.old.items ++ first ∷ second ∷ third ∷ []) }
    ensures err { OnErr result (bytes.new.items ≡ bytes.old.items) }
{
    bytes.reserve(3)?;
    bytes.push_reserved(first);
    bytes.push_reserved(second);
    bytes.push_reserved(third);
    Ok(())
}

/// Puts four bytes.
#[inline(always)]
fn put_four(
    bytes: &mut Vec<u8>,
    first: u8,
    second: u8,
    third: u8,
    fourth: u8,
) -> Result<(), AllocError>
    ensures ok { OnOk result (bytes.new.items ≡ bytes.old.items ++ first ∷ second ∷ third ∷ fourth ∷ []) }
    ensures err { OnErr result (bytes.new.items ≡ bytes.old.items) }
{
    bytes.reserve(4)?;
    bytes.push_reserved(first);
    bytes.push_reserved(second);
    bytes.push_reserved(third);
    bytes.push_reserved(fourth);
    Ok(())
}

/// Puts a byte, and then both of these.
#[inline(never)]
fn put_all(bytes: &mut Vec<u8>, byte: u8, one: &[u8], other: &[u8]) -> Result<(), AllocError>
    ensures ok { OnOk result (bytes.new.items ≡ bytes.old.items ++ byte ∷ (one.now ++ other.now)) }
    ensures err { OnErr result (bytes.new.items ≡ bytes.old.items) }
{
    bytes.reserve(one.len())?;
    bytes.reserve(one.len() + other.len() + 1)?;
    bytes.push_reserved(byte);
    let _ = bytes.extend_from_slice(one);
    let _ = bytes.extend_from_slice(other);
    Ok(())
}

/// Puts a byte, and then the first ones of these, so many: there is room for all of them.
// All are copied and then cut, so that no branch depends on how many are wanted.
#[inline(always)]
pub(crate) fn put_cut(bytes: &mut Vec<u8>, byte: u8, padded: &[u8], count: usize)
    requires room { vec_len bytes.old + 1 + length padded.now ≤ vec_capacity bytes.old }
    requires few { count ≤ length padded.now }
    ensures { bytes.new.items ≡ bytes.old.items ++ byte ∷ take count padded.now }
{
    bytes.push_reserved(byte);
    let end = bytes.len() + count;
    let _ = bytes.extend_from_slice(padded);
    bytes.truncate(end);
}

/// Puts a byte, and then an integer of any length.
#[inline(never)]
fn put_long(bytes: &mut Vec<u8>, byte: u8, integer: &Leb) -> Result<(), AllocError>
    ensures ok { OnOk result (bytes.new.items ≡ bytes.old.items ++ byte ∷ integer.now) }
    ensures err { OnErr result (bytes.new.items ≡ bytes.old.items) }
{
    if bytes.capacity() - bytes.len() < INTEGER_LIMIT {
        return put_all(bytes, byte, integer.as_slice(), &[]);
    }
    let (padded, count) = integer.padded();
    put_cut(bytes, byte, padded, count);
    Ok(())
}

/// Puts a byte and an unsigned integer. Most have one byte or two.
#[inline(always)]
fn put_unsigned(bytes: &mut Vec<u8>, byte: u8, n: u32) -> Result<(), AllocError>
    ensures ok { OnOk result (bytes.new.items ≡ bytes.old.items ++ byte ∷ unsigned_bytes n) }
    ensures err { OnErr result (bytes.new.items ≡ bytes.old.items) }
{
    if n < 128 {
        return put_two(bytes, byte, n as u8);
    }
    if n < 16_384 {
        return put_three(bytes, byte, 128 + (n % 128) as u8, (n / 128) as u8);
    }
    put_long(bytes, byte, &shortest_u(u64::from(n)))
}

/// Seven bits of a byte, turned over in a negative number.
#[inline(always)]
fn group(negative: bool, bits: u8) -> u8
    requires { bits < 128 }
    ensures { result ≡ group_of negative bits }
{
    if negative { 127 - bits } else { bits }
}

/// Puts a byte and a signed integer of one byte or two, by its sign and its bits, which are turned over in a negative
/// number.
#[inline(always)]
fn put_groups(bytes: &mut Vec<u8>, byte: u8, negative: bool, bits: u64) -> Result<(), AllocError>
    requires { bits < 8192 }
    ensures ok { OnOk result (bytes.new.items ≡ bytes.old.items ++ byte ∷ signed_bytes (signed_of negative bits)) }
    ensures err { OnErr result (bytes.new.items ≡ bytes.old.items) }
{
    if bits < 64 {
        return put_two(bytes, byte, group(negative, bits as u8));
    }
    let first = 128 + group(negative, (bits % 128) as u8);
    put_three(bytes, byte, first, group(negative, (bits / 128) as u8))
}

/// Puts a byte and a signed integer. Most have one byte or two.
#[inline(always)]
fn put_signed(bytes: &mut Vec<u8>, byte: u8, n: i64) -> Result<(), AllocError>
    ensures ok { OnOk result (bytes.new.items ≡ bytes.old.items ++ byte ∷ signed_bytes n) }
    ensures err { OnErr result (bytes.new.items ≡ bytes.old.items) }
{
    if 0 <= n && n < 8_192 {
        return put_groups(bytes, byte, false, n as u64);
    }
    if -8_193 < n && n < 0 {
        return put_groups(bytes, byte, true, (-1 - n) as u64);
    }
    put_long(bytes, byte, &shortest_s(n))
}

#[inline(always)]
fn put_simple(bytes: &mut Vec<u8>, op: SimpleOp) -> Result<(), AllocError>
    ensures ok { OnOk result (bytes.new.items ≡ bytes.old.items ++ instr_bytes (Simple op)) }
    ensures err { OnErr result (bytes.new.items ≡ bytes.old.items) }
{
    if matches!(op, SimpleOp::MemorySize | SimpleOp::MemoryGrow) {
        return put_two(bytes, op.byte(), 0x00);
    }
    bytes.push(op.byte())?;
    Ok(())
}

/// Puts an access of memory. Most have an offset of one byte or two.
#[inline(always)]
fn put_access(bytes: &mut Vec<u8>, op: MemOp, arg: MemArg) -> Result<(), AllocError>
    ensures ok { OnOk result (bytes.new.items ≡ bytes.old.items ++ instr_bytes (Mem op arg)) }
    ensures fits { FitsInstr (Mem op arg) }
    ensures err { OnErr result (bytes.new.items ≡ bytes.old.items) }
{
    if arg.align < 128 {
        let align = arg.align as u8;
        if arg.offset < 128 {
            return put_three(bytes, op.byte(), align, arg.offset as u8);
        }
        if arg.offset < 16_384 {
            let low = 128 + (arg.offset % 128) as u8;
            return put_four(bytes, op.byte(), align, low, (arg.offset / 128) as u8);
        }
    }
    let align = shortest_u(u64::from(arg.align));
    let offset = shortest_u(u64::from(arg.offset));
    put_all(bytes, op.byte(), align.as_slice(), offset.as_slice())
}

/// Puts a number into a vector of its own, which may be left half written.
fn write_number(table: &mut Vec<u8>, n: u32) -> Result<(), AllocError>
    ensures { OnOk result (table.new.items ≡ table.old.items ++ unsigned_bytes n) }
{
    table.extend_from_slice(shortest_u(u64::from(n)).as_slice())
}

fn put_table(bytes: &mut Vec<u8>, default: u32, labels: Labels<'_>) -> Result<(), AllocError>
    ensures ok { OnOk result (bytes.new.items ≡ bytes.old.items ++ instr_bytes (BrTable default labels.entry)) }
    ensures fits { OnOk result (FitsInstr (BrTable default labels.entry)) }
    ensures err { OnErr result (bytes.new.items ≡ bytes.old.items) }
{
    let mut table = Vec::new(*bytes.allocator());
    write_number(&mut table, labels.len())?;
    for label in labels {
        write_number(&mut table, label)?;
    }
    let default = shortest_u(u64::from(default));
    put_all(bytes, 0x0e, table.as_slice(), default.as_slice())
}

/// Puts an instruction. The error is want of memory, and then the bytes are as they were.
#[inline(always)]
pub(crate) fn put_instr(bytes: &mut Vec<u8>, instr: &Instr<'_>) -> Result<(), AllocError>
    ensures ok { OnOk result (bytes.new.items ≡ bytes.old.items ++ instr_bytes instr.now) }
    ensures fits { OnOk result (FitsInstr instr.now) }
    ensures err { OnErr result (bytes.new.items ≡ bytes.old.items) }
{
    match *instr {
        Instr::Simple(op) => put_simple(bytes, op),
        Instr::Index(op, index) => put_unsigned(bytes, op.byte(), index),
        Instr::Mem(op, arg) => put_access(bytes, op, arg),
        Instr::BrTable(default, ref labels) => put_table(bytes, default, labels.again()),
        Instr::CallIndirect(ty) => {
            put_all(bytes, 0x11, shortest_u(u64::from(ty)).as_slice(), &[0x00])
        }
        Instr::I32Const(n) => put_signed(bytes, 0x41, i64::from(n)),
        Instr::I64Const(n) => put_signed(bytes, 0x42, n),
    }
}

fn opening_byte(kind: Kind) -> u8
    ensures { (result ∷ []) ≡ opening_bytes kind }
{
    match kind {
        Kind::Block => 0x02,
        Kind::Loop => 0x03,
        Kind::If => 0x04,
    }
}

/// Puts what begins a block, a loop or an if. The error is want of memory, and then the bytes are as they were.
pub(crate) fn put_begin(
    bytes: &mut Vec<u8>,
    kind: Kind,
    block_type: BlockType,
) -> Result<(), AllocError>
    ensures ok { OnOk result (bytes.new.items ≡ bytes.old.items ++ entry_bytes (Begin kind block_type)) }
    ensures fits { FitsBlockType block_type }
    ensures err { OnErr result (bytes.new.items ≡ bytes.old.items) }
{
    let byte = opening_byte(kind);
    match block_type {
        BlockType::Empty => put_two(bytes, byte, 0x40),
        BlockType::Value(ty) => put_two(bytes, byte, ty.byte()),
        BlockType::Index(index) => put_signed(bytes, byte, i64::from(index)),
    }
}
