//! Entries that bytes begin with, spelled as they are kept: as most are, so they can be kept without a copy of each.

ghost use Rattle.std.specs.Prelude.{◌≡◌, ◌++◌, ◌∷◌, [], IsTrue, IfSome, IsNone};
ghost use Rattle.wc_body.specs.Drafting.AtFront.{NotesIndex, NotesIndirect, NotesAccess};
ghost use Rattle.wc_body.specs.Drafting.AtFront.{NotesBegin, NotesPlain, Notes};
ghost use Rattle.wc_body.specs.Standard.InstructionBytes.{simple_rest};
ghost use Rattle.wc_body.specs.Standard.Needed.{with_simple};
ghost use Rattle.wc_body.specs.Drafting.AtFront.{IsBare, IsWholeType};
ghost use Rattle.wc_body.specs.Drafting.AtFront.{NotesMark, NotesMarks, NotesUsual};
ghost use Rattle.wc_body.specs.Writing.EntryBytes.{opening_bytes};

use crate::builder::{Part, first_part_of};
use crate::entry::Kind;
use crate::instr::Instr;
use crate::kept::body::NESTING_LIMIT;
use crate::needs::Needs;
use crate::runs::integers::{behind_i32, behind_i64, behind_zero, unsigned_front};
use wc_ops::{IndexOp, MemOp, Op, OpByte, SimpleOp, ValType};

/// Notes the instruction of an index that these bytes begin with. What follows it is answered.
#[inline(always)]
fn index_front<'a>(
    op: IndexOp,
    enclosing: usize,
    bytes: &'a [u8],
    needs: &mut Needs,
) -> Option<&'a [u8]>
    ensures some { IfSome result (λ rest. NotesIndex op enclosing bytes.now rest.now needs.old needs.new) }
    ensures none { IsNone result → needs.new ≡ needs.old }
{
    let (index, rest) = unsigned_front(bytes)?;
    needs.note_index(enclosing, op, index);
    Some(rest)
}

/// The same of an access of memory, whose alignment has one byte.
#[inline(always)]
fn access_front<'a>(op: MemOp, bytes: &'a [u8], needs: &mut Needs) -> Option<&'a [u8]>
    ensures some { IfSome result (λ rest. NotesAccess op bytes.now rest.now needs.old needs.new) }
    ensures none { IsNone result → needs.new ≡ needs.old }
{
    let (align, rest) = bytes.split_first()?;
    if *align >= 128 {
        return None;
    }
    let (_, rest) = unsigned_front(rest)?;
    needs.note_access(op, u32::from(*align));
    Some(rest)
}

/// Whether the byte is a block type on its own.
#[inline(always)]
fn is_whole_type(byte: u8) -> bool
    ensures { IsTrue result → IsWholeType byte }
{
    match byte {
        0x40 => true,
        byte => ValType::of_byte(byte).is_some(),
    }
}

/// The same of a block, a loop or an if whose type has no index, where there is room to note that it is open.
#[inline(always)]
fn begin_front<'a>(kind: Kind, bytes: &'a [u8], parts: &mut Vec<Part>) -> Option<&'a [u8]>
    ensures some { IfSome result (λ rest. NotesBegin kind bytes.now rest.now parts.old.items parts.new.items) }
    ensures none { IsNone result → parts.new.items ≡ parts.old.items }
{
    let (ty, rest) = bytes.split_first()?;
    if !is_whole_type(*ty) {
        return None;
    }
    if parts.len() >= NESTING_LIMIT || parts.len() >= parts.capacity() {
        return None;
    }
    parts.push_reserved(first_part_of(kind));
    Some(rest)
}

/// Whether nothing follows the opcode.
#[inline(always)]
fn is_bare(op: SimpleOp) -> bool
    ensures { IsTrue result → IsBare op }
{
    !matches!(op, SimpleOp::MemorySize | SimpleOp::MemoryGrow)
}

/// The same of an instruction behind whose opcode a byte 0 stands.
#[inline(never)]
fn sized_front<'a>(op: SimpleOp, bytes: &'a [u8], needs: &mut Needs) -> Option<&'a [u8]>
    ensures some { IfSome result (λ rest.
        (bytes.now ≡ simple_rest op ++ rest.now) × (needs.new ≡ with_simple needs.old op)) }
    ensures none { IsNone result → needs.new ≡ needs.old }
{
    let rest = behind_zero(bytes)?;
    match op {
        SimpleOp::MemorySize => {
            needs.memory = true;
            Some(rest)
        }
        SimpleOp::MemoryGrow => {
            needs.memory = true;
            Some(rest)
        }
        _ => None,
    }
}

/// The same of a call through a table.
#[inline(never)]
fn indirect_front<'a>(enclosing: usize, bytes: &'a [u8], needs: &mut Needs) -> Option<&'a [u8]>
    ensures some { IfSome result (λ rest. NotesIndirect enclosing bytes.now rest.now needs.old needs.new) }
    ensures none { IsNone result → needs.new ≡ needs.old }
{
    let (ty, rest) = unsigned_front(bytes)?;
    let rest = behind_zero(rest)?;
    needs.note_instr(enclosing, &Instr::CallIndirect(ty));
    Some(rest)
}

/// The same of an instruction by its meaning, where it is one without an immediate, or an access.
#[inline(always)]
fn meant_front<'a>(byte: u8, bytes: &'a [u8], needs: &mut Needs) -> Option<&'a [u8]>
    ensures some { IfSome result (λ rest. NotesPlain byte bytes.now rest.now needs.old needs.new) }
    ensures none { IsNone result → needs.new ≡ needs.old }
{
    match Op::of_byte(byte) {
        OpByte::Known(Op::Simple(op)) => {
            if !is_bare(op) {
                return sized_front(op, bytes, needs);
            }
            Some(bytes)
        }
        OpByte::Known(Op::Mem(op)) => access_front(op, bytes, needs),
        _ => None,
    }
}

/// Notes the instruction that these bytes begin with, where it is a usual one and these blocks enclose it. What follows
/// it is answered.
#[inline(always)]
pub(crate) fn instr_front<'a>(
    bytes: &'a [u8],
    needs: &mut Needs,
    parts: &Vec<Part>,
) -> Option<&'a [u8]>
    ensures some { IfSome result (λ rest.
        Notes bytes.now rest.now needs.old needs.new parts.now.items parts.now.items) }
    ensures none { IsNone result → needs.new ≡ needs.old }
{
    let (byte, rest) = bytes.split_first()?;
    let enclosing = parts.len();
    match *byte {
        0x0c => index_front(IndexOp::Br, enclosing, rest, needs),
        0x0d => index_front(IndexOp::BrIf, enclosing, rest, needs),
        0x10 => index_front(IndexOp::Call, enclosing, rest, needs),
        0x11 => indirect_front(enclosing, rest, needs),
        0x20 => index_front(IndexOp::LocalGet, enclosing, rest, needs),
        0x21 => index_front(IndexOp::LocalSet, enclosing, rest, needs),
        0x22 => index_front(IndexOp::LocalTee, enclosing, rest, needs),
        0x23 => index_front(IndexOp::GlobalGet, enclosing, rest, needs),
        0x24 => index_front(IndexOp::GlobalSet, enclosing, rest, needs),
        0x41 => behind_i32(rest),
        0x42 => behind_i64(rest),
        _ => meant_front(*byte, rest, needs),
    }
}

/// What this byte opens, where it is the opcode of a block, a loop or an if.
#[inline(always)]
fn kind_of(byte: u8) -> Option<Kind>
    ensures { IfSome result (λ kind. opening_bytes kind ≡ byte ∷ []) }
{
    match byte {
        0x02 => Some(Kind::Block),
        0x03 => Some(Kind::Loop),
        0x04 => Some(Kind::If),
        _ => None,
    }
}

/// Notes the block, the loop, the if or the end that these bytes begin with, where it is a usual one. What follows it
/// is answered.
#[inline(always)]
fn mark_front<'a>(bytes: &'a [u8], parts: &mut Vec<Part>) -> Option<&'a [u8]>
    ensures some { IfSome result (λ rest. NotesMark bytes.now rest.now parts.old.items parts.new.items) }
    ensures none { IsNone result → parts.new.items ≡ parts.old.items }
{
    let (byte, rest) = bytes.split_first()?;
    if *byte > 0x0b {
        return None;
    }
    if *byte == 0x0b {
        let _ = parts.pop()?;
        return Some(rest);
    }
    let kind = kind_of(*byte)?;
    begin_front(kind, rest, parts)
}

/// Notes the blocks, loops, ifs and ends that these bytes begin with, one after the other. What follows these is
/// answered.
#[inline(always)]
fn after_marks<'a>(bytes: &'a [u8], parts: &mut Vec<Part>) -> &'a [u8]
    ensures { NotesMarks bytes.now result.now parts.old.items parts.new.items }
{
    let mut rest = bytes;
    'marks: loop {
        let Some(behind) = mark_front(rest, parts) else {
            break;
        };
        rest = behind;
    }
    rest
}

/// Notes the entry that these bytes begin with, where it is a usual one. Behind a block, a loop, an if or an end, those
/// that follow are noted too, since they often stand in a row. What follows all of them is answered.
#[inline(always)]
pub(crate) fn usual_front<'a>(
    bytes: &'a [u8],
    needs: &mut Needs,
    parts: &mut Vec<Part>,
) -> Option<&'a [u8]>
    ensures some { IfSome result (λ rest.
        NotesUsual bytes.now rest.now needs.old needs.new parts.old.items parts.new.items) }
    ensures none { IsNone result → (needs.new ≡ needs.old) × (parts.new.items ≡ parts.old.items) }
{
    match mark_front(bytes, parts) {
        Some(rest) => Some(after_marks(rest, parts)),
        None => instr_front(bytes, needs, parts),
    }
}
