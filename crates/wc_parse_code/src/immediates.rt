//! Labels and immediates.

ghost use Rattle.std.specs.Prelude.{◌≡◌, OnOk};
ghost use Rattle.wc_parse_code.specs.Drafting.Immediates.{label_by, end_label_by, index_in, offset_by, align_by};
ghost use Rattle.wc_parse_code.specs.Drafting.Immediates.{literal_by};

use crate::awaiting::Awaiting;
use crate::body_draft::BodyDraft;
use crate::row::low_32;
use crate::word::{Word, operand_of};
use std::alloc::AllocError;
use wc_surface::{Id, TextInstr};
use wc_symbols::Value;

impl<'a> BodyDraft<'a> {
    /// The label of the block whose head is being written (Core 1.0, 6.5.2).
    pub(crate) fn take_label(&mut self, id: Id<'a>)
        ensures { self.new ≡ label_by self.old.awaiting id.entry self.old }
    {
        match &self.awaiting {
            Awaiting::Head(_) => self.awaiting = Awaiting::Head(Some(id)),
            _ => {}
        }
    }

    /// The identifier behind `else` or `end` (Core 1.0, 6.5.2). The error is want of memory.
    pub(crate) fn take_end_label(&mut self, id: Id<'a>) -> Result<(), AllocError>
        ensures { OnOk result (self.new ≡ end_label_by self.old.awaiting id.entry self.old) }
    {
        match self.awaiting {
            Awaiting::ElseId(place) => self.heads.set_else_id(place, id),
            Awaiting::EndId(place) => self.heads.set_end_id(place, id),
            _ => Ok(()),
        }
    }

    /// An index (Core 1.0, 6.5.2 to 6.5.4).
    #[inline(always)]
    pub(crate) fn take_index(&mut self, word: &Word<'a>) -> Result<(), AllocError>
        ensures { OnOk result (self.new ≡ index_in self.old.awaiting word.now self.old) }
    {
        match self.awaiting {
            Awaiting::Index(op) => {
                let operand = operand_of(word, &mut self.ids)?;
                self.awaiting = Awaiting::Nothing;
                self.say(TextInstr::Index(op, operand))
            }
            Awaiting::Labels(_) => {
                let operand = operand_of(word, &mut self.ids)?;
                self.labels.push(operand)
            }
            _ => Ok(()),
        }
    }

    /// The offset of a load or a store (Core 1.0, 6.5.5).
    #[inline(always)]
    pub(crate) fn take_offset(&mut self, value: Value)
        ensures { self.new ≡ offset_by self.old.awaiting value self.old }
    {
        match (&self.awaiting, value) {
            (Awaiting::MemArg(op, align, _), Value::Offset(offset)) => {
                self.awaiting = Awaiting::MemArg(*op, *align, Some(offset));
            }
            _ => {}
        }
    }

    /// The exponent of its alignment (Core 1.0, 6.5.5).
    #[inline(always)]
    pub(crate) fn take_align(&mut self, value: Value)
        ensures { self.new ≡ align_by self.old.awaiting value self.old }
    {
        match (&self.awaiting, value) {
            (Awaiting::MemArg(op, _, offset), Value::Exponent(exponent)) if exponent < 256 => {
                self.awaiting = Awaiting::MemArg(*op, Some(exponent as u8), *offset);
            }
            _ => {}
        }
    }

    /// The number of a constant, from its two's complement (Core 1.0, 6.3.1 and 6.5.6).
    #[inline(always)]
    pub(crate) fn take_literal(&mut self, value: Value) -> Result<(), AllocError>
        ensures { OnOk result (self.new ≡ literal_by self.old.awaiting value self.old) }
    {
        let Value::Number(bits) = value else {
            return Ok(());
        };
        match self.awaiting {
            Awaiting::Literal32 => {
                self.awaiting = Awaiting::Nothing;
                self.say(TextInstr::I32Const(low_32(bits as usize).cast_signed()))
            }
            Awaiting::Literal64 => {
                self.awaiting = Awaiting::Nothing;
                self.say(TextInstr::I64Const(bits.cast_signed()))
            }
            _ => Ok(()),
        }
    }
}
