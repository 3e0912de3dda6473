//! Names of instructions.

ghost use Rattle.std.specs.Prelude.{◌≡◌, OnOk};
ghost use Rattle.wc_parse_code.specs.Drafting.Opening.{plain_by, name_plain, await_head, begin_by, hold_if, turn_by};
ghost use Rattle.wc_parse_code.specs.Drafting.Opening.{end_by};

use crate::awaiting::Awaiting;
use crate::body_draft::BodyDraft;
use crate::held::Held;
use crate::saying::{end_in, turn_in};
use std::alloc::AllocError;
use wc_ast::Kind;
use wc_ops::Op;
use wc_surface::{TextInstr, User};
use wc_symbols::Value;

impl<'a> BodyDraft<'a> {
    /// The name of an instruction in which none is nested, which waits for its operands or doesn't.
    #[inline(always)]
    pub(crate) fn name_plain(
        &mut self,
        waits: bool,
        value: Value,
        token: u32,
    ) -> Result<(), AllocError>
        ensures { OnOk result (self.new ≡ name_plain waits value token self.old) }
    {
        self.waits = waits;
        match value {
            Value::Instruction(op) => self.name_op(op, token),
            _ => Ok(()),
        }
    }

    #[inline(always)]
    fn name_op(&mut self, op: Op, token: u32) -> Result<(), AllocError>
        ensures { OnOk result (self.new ≡ plain_by (Value.Instruction op) token self.old) }
    {
        match op {
            Op::Simple(op) => return self.say(TextInstr::Simple(op)),
            Op::Index(op) => self.awaiting = Awaiting::Index(op),
            Op::Mem(op) => self.awaiting = Awaiting::MemArg(op, None, None),
            Op::BrTable => self.awaiting = Awaiting::Labels(self.labels.len()),
            Op::CallIndirect => {
                self.awaiting = Awaiting::Use;
                self.written.restart(User::CallIndirect, token);
            }
            Op::I32Const => self.awaiting = Awaiting::Literal32,
            Op::I64Const => self.awaiting = Awaiting::Literal64,
            Op::Block | Op::Loop | Op::If => {}
        }
        Ok(())
    }

    /// A head is being written.
    fn await_head(&mut self, token: u32)
        ensures { self.new ≡ await_head token self.old }
    {
        self.awaiting = Awaiting::Head(None);
        self.written.restart(User::Block, token);
    }

    /// A block, a loop or an if begins.
    pub(crate) fn begin(&mut self, value: Value, token: u32) -> Result<(), AllocError>
        ensures { OnOk result (self.new ≡ begin_by value token self.old) }
    {
        let kind = match value {
            Value::Instruction(Op::Block) => Kind::Block,
            Value::Instruction(Op::Loop) => Kind::Loop,
            Value::Instruction(Op::If) => Kind::If,
            _ => return Ok(()),
        };
        let place = self.heads.place_behind();
        self.begin_block(kind, place)?;
        self.await_head(token);
        Ok(())
    }

    /// An if waits for its condition (Core 1.0, 6.5.7).
    pub(crate) fn hold_if(&mut self, token: u32) -> Result<(), AllocError>
        ensures { OnOk result (self.new ≡ hold_if token self.old) }
    {
        let place = self.heads.place_behind();
        self.held.push(Held::If(place))?;
        self.await_head(token);
        Ok(())
    }

    /// The innermost one turns to its else part.
    pub(crate) fn turn(&mut self) -> Result<(), AllocError>
        ensures { OnOk result (self.new ≡ turn_by self.old.blocks self.old) }
    {
        match self.blocks.top() {
            None => Ok(()),
            Some(head) => {
                self.awaiting = Awaiting::ElseId(head);
                turn_in(&mut self.code)
            }
        }
    }

    /// The innermost one ends.
    pub(crate) fn end(&mut self) -> Result<(), AllocError>
        ensures { OnOk result (self.new ≡ end_by self.old.blocks self.old) }
    {
        match self.blocks.pop() {
            None => Ok(()),
            Some(head) => {
                self.awaiting = Awaiting::EndId(head);
                end_in(&mut self.code)
            }
        }
    }
}
