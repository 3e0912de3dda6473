//! Instructions that bytes begin with, whose integers may be spelled longer than they are kept.

ghost use Rattle.std.specs.Prelude.{◌≡◌, ◌<◌, ◌≤◌, ◌∷◌, get_or, length, IfSome, IsNone};
ghost use Rattle.wc_ops.specs.Standard.Opcodes.{row};
ghost use Rattle.wc_ops.specs.declared.op.Op.TheVariants as ops;
ghost use Rattle.wc_body.specs.Drafting.FreeEntries.{AddsOne, AddsFree};
ghost use Rattle.wc_body.specs.Drafting.FrontEntries.{AddsFront};

use crate::builder::BodyBuilder;
use crate::bytes::number::{i32_in_place, i64_in_place};
use crate::instr::{Instr, MemArg};
use wc_leb128::u32_front;
use wc_ops::{IndexOp, Op, OpByte};

/// Whether this is the opcode of an instruction of an index, of a constant, or of an access of memory.
#[inline(always)]
fn is_of_integers(opcode: u8) -> bool {
    matches!(opcode, 0x0c | 0x0d | 0x10 | 0x20..=0x24 | 0x28 | 0x29 | 0x2c..=0x37 | 0x3a..=0x3e | 0x41 | 0x42)
}

/// Whether these bytes begin with an index, a constant or an alignment that has five bytes or more.
// Linkers leave such integers, where they put one in place of another.
#[inline(always)]
fn is_wide(bytes: &[u8]) -> bool {
    bytes.len() >= 6 && bytes[1] & bytes[2] & bytes[3] & bytes[4] >= 128 && is_of_integers(bytes[0])
}

impl BodyBuilder {
    /// Adds the instruction of an index whose opcode was passed, where it fits the memory at hand. What follows the
    /// index is answered.
    #[inline(always)]
    fn push_index<'a>(&mut self, op: IndexOp, bytes: &'a [u8]) -> Option<&'a [u8]>
        ensures some { IfSome result (λ rest.
            AddsOne self.old self.new ((row (ops.Index op)).byte ∷ bytes.now) rest.now) }
        ensures none { IsNone result → self.new ≡ self.old }
    {
        let (index, rest) = u32_front(bytes)?;
        if !self.push_fitting(Instr::Index(op, index)) {
            return None;
        }
        Some(rest)
    }

    /// The same of a constant of 32 bits.
    #[inline(always)]
    fn push_i32<'a>(&mut self, bytes: &'a [u8]) -> Option<&'a [u8]>
        ensures some { IfSome result (λ rest. AddsOne self.old self.new (0x41 ∷ bytes.now) rest.now) }
        ensures none { IsNone result → self.new ≡ self.old }
    {
        let (n, rest) = i32_in_place(bytes)?;
        if !self.push_fitting(Instr::I32Const(n)) {
            return None;
        }
        Some(rest)
    }

    /// The same of a constant of 64 bits.
    #[inline(always)]
    fn push_i64<'a>(&mut self, bytes: &'a [u8]) -> Option<&'a [u8]>
        ensures some { IfSome result (λ rest. AddsOne self.old self.new (0x42 ∷ bytes.now) rest.now) }
        ensures none { IsNone result → self.new ≡ self.old }
    {
        let (n, rest) = i64_in_place(bytes)?;
        if !self.push_fitting(Instr::I64Const(n)) {
            return None;
        }
        Some(rest)
    }

    /// The same of an access of memory, whose opcode is this one.
    // A call, so that it takes no registers where most are none.
    #[inline(never)]
    fn push_access<'a>(&mut self, opcode: u8, bytes: &'a [u8]) -> Option<&'a [u8]>
        ensures some { IfSome result (λ rest. AddsOne self.old self.new (opcode ∷ bytes.now) rest.now) }
        ensures none { IsNone result → self.new ≡ self.old }
    {
        let OpByte::Known(Op::Mem(op)) = Op::of_byte(opcode) else {
            return None;
        };
        let (align, rest) = u32_front(bytes)?;
        let (offset, rest) = u32_front(rest)?;
        if !self.push_fitting(Instr::Mem(op, MemArg { align, offset })) {
            return None;
        }
        Some(rest)
    }

    /// Adds the instruction that these bytes begin with, where it is an index's, a constant or an access, and fits the
    /// memory at hand. What follows it is answered.
    // An arm for each, so that it isn't told apart once more when it is added.
    #[inline(always)]
    fn push_free<'a>(&mut self, bytes: &'a [u8]) -> Option<&'a [u8]>
        ensures some { IfSome result (λ rest. AddsOne self.old self.new bytes.now rest.now) }
        ensures none { IsNone result → self.new ≡ self.old }
    {
        let (byte, rest) = bytes.split_first()?;
        match *byte {
            0x0c => self.push_index(IndexOp::Br, rest),
            0x0d => self.push_index(IndexOp::BrIf, rest),
            0x10 => self.push_index(IndexOp::Call, rest),
            0x20 => self.push_index(IndexOp::LocalGet, rest),
            0x21 => self.push_index(IndexOp::LocalSet, rest),
            0x22 => self.push_index(IndexOp::LocalTee, rest),
            0x23 => self.push_index(IndexOp::GlobalGet, rest),
            0x24 => self.push_index(IndexOp::GlobalSet, rest),
            0x41 => self.push_i32(rest),
            0x42 => self.push_i64(rest),
            opcode => self.push_access(opcode, rest),
        }
    }

    /// Adds the instruction that these bytes begin with, of one byte or two, where the third byte or the fourth is 128
    /// or more, as in a long integer that stands behind it or behind the next one. What follows it is answered.
    // No look for a run that would mostly end at once.
    #[inline(always)]
    fn push_before<'a>(&mut self, bytes: &'a [u8]) -> Option<&'a [u8]>
        requires { (6 ≤ length bytes.now) × (get_or bytes.now 1 0 < 128) }
        ensures some { IfSome result (λ rest. AddsOne self.old self.new bytes.now rest.now) }
        ensures none { IsNone result → self.new ≡ self.old }
    {
        if bytes[2] < 128 {
            if bytes[3] < 128 {
                return None;
            }
            if self.push_two(bytes[0], bytes[1]) {
                return Some(&bytes[2..]);
            }
        }
        if !self.push_alone(bytes[0]) {
            return None;
        }
        Some(&bytes[1..])
    }

    /// Adds the instruction that these bytes begin with, where it seems to stand before a long integer, or where its
    /// own integer has two bytes or more and a row of a table tells what it is like. What follows it is answered.
    // No jump by the opcode.
    #[inline(always)]
    fn push_light<'a>(&mut self, bytes: &'a [u8]) -> Option<&'a [u8]>
        ensures some { IfSome result (λ rest. AddsOne self.old self.new bytes.now rest.now) }
        ensures none { IsNone result → self.new ≡ self.old }
    {
        if bytes.len() < 6 {
            return None;
        }
        if bytes[1] < 128 {
            return self.push_before(bytes);
        }
        self.push_respelled(bytes)
    }

    /// Adds the entries that these bytes begin with, as `push_front` does, or none where it would take none.
    #[inline(always)]
    fn push_others(&mut self, bytes: &[u8]) -> usize
        ensures { AddsFront self.old self.new bytes.now result }
    {
        if is_wide(bytes) {
            return 0;
        }
        self.push_front(bytes)
    }

    /// Adds the instruction that these bytes begin with, where its first integer has five bytes or more. What follows
    /// it is answered.
    // No jump by the opcode where a run ends for another reason.
    #[inline(always)]
    fn push_wide<'a>(&mut self, bytes: &'a [u8]) -> Option<&'a [u8]>
        ensures some { IfSome result (λ rest. AddsOne self.old self.new bytes.now rest.now) }
        ensures none { IsNone result → self.new ≡ self.old }
    {
        if !is_wide(bytes) {
            return None;
        }
        self.push_free(bytes)
    }

    /// Adds the entries that these bytes begin with, as many as are usual and fit the memory at hand. Each is spelled
    /// as it is kept, but for an index or a constant, or an access whose alignment has five bytes or more: the spelling
    /// of these may be any. Answers how many bytes they have. No end is added at which none is open.
    // A call, so that its loops have registers of their own.
    #[inline(never)]
    pub fn push_ahead(&mut self, bytes: &[u8]) -> usize
        ensures { AddsFree self.old self.new bytes.now result }
    {
        let mut rest = bytes;
        'runs: loop {
            if let Some(behind) = self.push_light(rest) {
                rest = behind;
                continue 'runs;
            }
            let count = self.push_others(rest);
            rest = &rest[count..];
            let Some(behind) = self.push_wide(rest) else {
                break;
            };
            rest = behind;
        }
        bytes.len() - rest.len()
    }
}
