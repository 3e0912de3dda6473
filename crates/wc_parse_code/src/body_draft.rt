//! Instructions of a body that are being said.

ghost use Rattle.std.specs.Prelude.{◌≡◌, IfOk, MatchOption, IsTrue, OnOk};
ghost use Rattle.wc_surface.specs.Kept.Bodies.{plain_body};
ghost use Rattle.wc_parse_code.specs.Drafting.Taking.{take, take_name};
ghost use Rattle.wc_parse_code.specs.Drafting.Ending.{nothing_said, body_of, ended};

use crate::awaiting::Awaiting;
use crate::ending::all_closed;
use crate::heads::Heads;
use crate::held::Held;
use crate::row::Row;
use crate::stack::Stack;
use crate::use_draft::UseDraft;
use crate::word::{Word, identifier_of};
use std::alloc::{AllocError, Global};
use wc_surface::{CodeBuilder, Id, Operand, TextBody, TextCode, TypeUse, User};
use wc_syntax::Role;

/// The instructions of a body that are being said (Core 1.0, 6.5). `take` says what each kept token adds.
#[derive(Drop)]
pub struct BodyDraft<'a> {
    // The instructions so far, folded ones behind their operands.
    pub(crate) code: CodeBuilder,
    // What they name by places, in the order of the text.
    pub(crate) heads: Heads<'a>,
    pub(crate) uses: Row<TypeUse<'a>>,
    pub(crate) ids: Row<Id<'a>>,
    pub(crate) labels: Row<Operand>,
    // What may still follow the last name, and whether its instruction waits for operands.
    pub(crate) awaiting: Awaiting<'a>,
    pub(crate) waits: bool,
    // The type use that is written behind it.
    pub(crate) written: UseDraft<'a>,
    // The instructions that wait for their operands.
    pub(crate) held: Stack<Held>,
    // The heads of the blocks that are open.
    pub(crate) blocks: Stack<u32>,
}

impl<'a> BodyDraft<'a> {
    /// Nothing is said yet. It takes no memory.
    pub fn new(alloc: Global) -> BodyDraft<'a>
        ensures { result ≡ nothing_said }
    {
        BodyDraft {
            code: CodeBuilder::new(alloc),
            heads: Heads::new(alloc),
            uses: Row::new(alloc),
            ids: Row::new(alloc),
            labels: Row::new(alloc),
            awaiting: Awaiting::Nothing,
            waits: false,
            written: UseDraft::new(alloc, User::Block, 0),
            held: Stack::new(alloc),
            blocks: Stack::new(alloc),
        }
    }

    /// One more kept token. Where it doesn't fit what is open, it adds nothing. The error is want of memory.
    #[inline(always)]
    pub fn take(&mut self, role: Role, word: &Word<'a>) -> Result<(), AllocError>
        ensures { OnOk result (self.new ≡ take self.old role word.now) }
    {
        match role {
            Role::Label => self.take_label(identifier_of(word)),
            Role::EndLabel => return self.take_end_label(identifier_of(word)),
            Role::Index => return self.take_index(word),
            Role::MemOffset => self.take_offset(word.symbol.value),
            Role::MemAlign => self.take_align(word.symbol.value),
            Role::Literal => return self.take_literal(word.symbol.value),
            Role::TypeIndex | Role::ParamId | Role::ParamType | Role::ResultType => {
                return self.written.take(role, word);
            }
            _ => return self.take_next(role, word),
        }
        Ok(())
    }

    /// The body. What is still open ends here: behind a text of the grammar nothing is. Then the draft begins anew. The
    /// error is want of memory.
    pub fn said(&mut self) -> Result<TextBody<'a>, AllocError>
        ensures said { IfOk result (λ body. body ≡ ended self.old) }
        ensures anew { OnOk result (self.new ≡ nothing_said) }
    {
        self.settle()?;
        let body = TextBody {
            code: all_closed(&mut self.code)?,
            heads: self.heads.take_list(),
            uses: self.uses.take_list(),
            ids: self.ids.take_list(),
            labels: self.labels.take_list(),
        };
        self.awaiting = Awaiting::Nothing;
        self.waits = false;
        self.written.restart(User::Block, 0);
        self.held.clear();
        self.blocks.clear();
        Ok(body)
    }

    /// The instructions, where they are all of the body: none of them names anything by its place. Else the body stays
    /// what it was. The error is want of memory.
    pub fn plain_code(&mut self) -> Result<Option<TextCode>, AllocError>
        ensures { IfOk result (λ found.
            MatchOption found (ended self.new ≡ ended self.old) (λ code. plain_body code ≡ ended self.old)) }
    {
        self.settle()?;
        if self.is_code_alone() {
            return Ok(Some(all_closed(&mut self.code)?));
        }
        Ok(None)
    }

    /// Nothing is said any more. The memory of what was said beside the instructions is kept.
    pub fn restart(&mut self)
        ensures { self.new ≡ nothing_said }
    {
        self.code.clear();
        self.heads.clear();
        self.uses.clear();
        self.ids.clear();
        self.labels.clear();
        self.awaiting = Awaiting::Nothing;
        self.waits = false;
        self.written.restart(User::Block, 0);
        self.held.clear();
        self.blocks.clear();
    }
}

impl<'a> BodyDraft<'a> {
    ghost use Rattle.wc_parse_code.specs.Drafting.Saying.{settled};

    /// Whether what was said is instructions alone.
    #[inline(always)]
    fn is_code_alone(&self) -> bool
        ensures { IsTrue result → plain_body (body_of self.now).code ≡ body_of self.now }
    {
        self.heads.is_empty()
            && self.uses.as_slice().is_empty()
            && self.ids.as_slice().is_empty()
            && self.labels.as_slice().is_empty()
    }

    /// A name, or what ends one, behind an instruction that is whole now.
    #[inline(always)]
    fn take_next(&mut self, role: Role, word: &Word<'a>) -> Result<(), AllocError>
        ensures { OnOk result (self.new ≡ take_name (settled self.old) role word.now) }
    {
        self.settle()?;
        self.take_name(role, word)
    }

    /// A name, or what ends one.
    #[inline(always)]
    fn take_name(&mut self, role: Role, word: &Word<'a>) -> Result<(), AllocError>
        ensures { OnOk result (self.new ≡ take_name self.old role word.now) }
    {
        match role {
            Role::Plain => self.name_plain(false, word.symbol.value, word.token),
            Role::HeldPlain => self.name_plain(true, word.symbol.value, word.token),
            Role::Begin => self.begin(word.symbol.value, word.token),
            Role::HeldBegin => self.hold_if(word.token),
            Role::HeldEnd | Role::Then => self.release(),
            Role::Else => self.turn(),
            Role::End => self.end(),
            _ => Ok(()),
        }
    }
}
