//! Instructions that are said whole.

ghost use Rattle.std.specs.Prelude.{◌≡◌, IfOk, OnOk};
ghost use Rattle.wc_body.specs.Standard.Nested.{plain, otherwise, close};
ghost use Rattle.wc_body.specs.Standard.Draft.{step};
ghost use Rattle.wc_parse_code.specs.Drafting.Saying.{say, begun_in, begin_block, release, with_use, with_head};
ghost use Rattle.wc_parse_code.specs.Drafting.Saying.{settled, table_of};

use crate::awaiting::Awaiting;
use crate::body_draft::BodyDraft;
use crate::held::Held;
use crate::row::low_32;
use std::alloc::AllocError;
use wc_ast::{BuildFault, Kind};
use wc_surface::{CodeBuilder, Head, HeadType, Id, Rare, TextInstr};

/// Begins a block, a loop or an if, where fewer than may be are open. The error is want of memory.
fn begin_in(code: &mut CodeBuilder, kind: Kind, head: u32) -> Result<(), AllocError>
    ensures { OnOk result (code.new ≡ begun_in code.old kind head) }
{
    match code.begin(kind, head) {
        Err(BuildFault::Memory) => Err(AllocError),
        _ => Ok(()),
    }
}

/// Turns to the else part, where one can come. The error is want of memory.
pub(crate) fn turn_in(code: &mut CodeBuilder) -> Result<(), AllocError>
    ensures { OnOk result (code.new ≡ step code.old otherwise) }
{
    match code.turn() {
        Err(BuildFault::Memory) => Err(AllocError),
        _ => Ok(()),
    }
}

/// Ends the innermost one that is open, where one is. The error is want of memory.
pub(crate) fn end_in(code: &mut CodeBuilder) -> Result<(), AllocError>
    ensures { OnOk result (code.new ≡ step code.old close) }
{
    match code.end() {
        Err(BuildFault::Memory) => Err(AllocError),
        _ => Ok(()),
    }
}

/// The `br_table` of the labels from `first` on.
fn table_of(first: usize, count: usize) -> TextInstr
    ensures { result ≡ table_of first count }
{
    TextInstr::BrTable {
        first: low_32(first),
        count: low_32(count.saturating_sub(first)),
    }
}

impl<'a> BodyDraft<'a> {
    /// An instruction: in front of its operands it waits for them (Core 1.0, 6.5.7), else it stands.
    #[inline(always)]
    pub(crate) fn say(&mut self, instr: TextInstr) -> Result<(), AllocError>
        ensures { OnOk result (self.new ≡ say self.old instr) }
    {
        if self.waits {
            self.held.push(Held::Plain(instr))
        } else {
            self.code.push(instr)
        }
    }

    /// A block, a loop or an if begins whose head has this place.
    pub(crate) fn begin_block(&mut self, kind: Kind, head: u32) -> Result<(), AllocError>
        ensures { OnOk result (self.new ≡ begin_block self.old kind head) }
    {
        begin_in(&mut self.code, kind, head)?;
        self.blocks.push(head)
    }

    /// The instruction that waits last stands now (Core 1.0, 6.5.7).
    #[inline(always)]
    pub(crate) fn release(&mut self) -> Result<(), AllocError>
        ensures { OnOk result (self.new ≡ release self.old) }
    {
        match self.held.pop() {
            None => Ok(()),
            Some(Held::Plain(instr)) => self.code.push(instr),
            Some(Held::If(head)) => self.begin_block(Kind::If, head),
        }
    }

    /// The type use that is written becomes the next of the body (Core 1.0, 6.6.3).
    pub(crate) fn put_use(&mut self) -> Result<(), AllocError>
        ensures { OnOk result (self.new ≡ with_use self.old) }
    {
        let said = self.written.said()?;
        self.uses.push(said)
    }

    /// The head that is written becomes the next of the body (Core 1.0, 6.5.2).
    pub(crate) fn put_head(&mut self, label: Option<Id<'a>>) -> Result<(), AllocError>
        ensures { OnOk result (self.new ≡ with_head label.entry self.old) }
    {
        let short = self.written.short_type();
        let ty = match short {
            Some(ty) => HeadType::Short(ty),
            None => HeadType::Use(self.uses.place_behind()),
        };
        self.heads.push(Head {
            token: self.written.token(),
            label: Rare::of(self.uses.allocator(), label)?,
            ty,
            else_id: Rare::none(),
            end_id: Rare::none(),
        })?;
        if short.is_none() {
            return self.put_use();
        }
        Ok(())
    }

    /// None of the last name's immediates can follow.
    // Mostly nothing is awaited but maybe an identifier, or a load or a store ends: the others stay out of the loop
    // over tokens.
    #[inline(always)]
    pub(crate) fn settle(&mut self) -> Result<(), AllocError>
        ensures { OnOk result (self.new ≡ settled self.old) }
    {
        match self.awaiting {
            Awaiting::Nothing => Ok(()),
            Awaiting::ElseId(_) | Awaiting::EndId(_) => {
                self.awaiting = Awaiting::Nothing;
                Ok(())
            }
            Awaiting::MemArg(op, align, offset) => {
                self.awaiting = Awaiting::Nothing;
                self.say(TextInstr::Access { op, align, offset })
            }
            _ => self.settle_any(),
        }
    }

    #[inline(never)]
    fn settle_any(&mut self) -> Result<(), AllocError>
        ensures { OnOk result (self.new ≡ settled self.old) }
    {
        match std::mem::replace(&mut self.awaiting, Awaiting::Nothing) {
            Awaiting::MemArg(op, align, offset) => self.say(TextInstr::Access {
                op,
                align,
                offset,
            }),
            Awaiting::Labels(first) => {
                let count = self.labels.len();
                self.say(table_of(first, count))
            }
            Awaiting::Use => {
                let place = self.uses.place_behind();
                self.put_use()?;
                self.say(TextInstr::CallIndirect(place))
            }
            Awaiting::Head(label) => self.put_head(label),
            _ => Ok(()),
        }
    }
}
