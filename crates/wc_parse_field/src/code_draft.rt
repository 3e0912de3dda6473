//! Instructions of a field that are being said.

ghost use Rattle.std.specs.Prelude.{◌≡◌, OnOk, IfOk, MatchOption};
ghost use Rattle.wc_surface.specs.Kept.Bodies.{plain_body};
ghost use Rattle.wc_parse_code.specs.Drafting.Ending.{ended};
ghost use Rattle.wc_parse_field.specs.Drafting.Fields.{no_code, take_code};

use std::alloc::{AllocError, Global};
use wc_parse_code::{BodyDraft, Word};
use wc_surface::{TextBody, TextCode};
use wc_syntax::Role;

/// Whether an instruction has begun, and the instructions so far (Core 1.0, 6.5).
#[derive(Drop)]
pub struct CodeDraft<'a> {
    pub(crate) begun: bool,
    pub(crate) body: BodyDraft<'a>,
}

impl<'a> CodeDraft<'a> {
    /// No instruction so far. It takes no memory.
    pub(crate) fn new(alloc: Global) -> CodeDraft<'a>
        ensures { result ≡ no_code }
    {
        CodeDraft {
            begun: false,
            body: BodyDraft::new(alloc),
        }
    }

    /// No instruction so far. The memory is kept.
    pub(crate) fn restart(&mut self)
        ensures { self.new ≡ no_code }
    {
        self.begun = false;
        self.body.restart();
    }

    /// One more kept token of an instruction. The error is want of memory.
    #[inline(always)]
    pub(crate) fn take(&mut self, role: Role, word: &Word<'a>) -> Result<(), AllocError>
        ensures { OnOk result (self.new ≡ take_code self.old role word.now) }
    {
        self.begun = true;
        self.body.take(role, word)
    }

    /// The instructions that were said. The error is want of memory.
    pub(crate) fn take_body(&mut self) -> Result<TextBody<'a>, AllocError>
        ensures { IfOk result (λ body. body ≡ ended self.old.body) }
    {
        self.body.said()
    }
    /// The instructions that were said, where they are all of the body. Else the body stays what it was. The error is
    /// want of memory.
    #[inline(always)]
    pub(crate) fn plain_code(&mut self) -> Result<Option<TextCode>, AllocError>
        ensures { IfOk result (λ found. MatchOption found (ended self.new.body ≡ ended self.old.body)
            (λ code. plain_body code ≡ ended self.old.body)) }
    {
        self.body.plain_code()
    }
}
