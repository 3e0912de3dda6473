//! Locals that are being said.

ghost use Rattle.std.specs.Prelude.{◌≡◌, OnOk};
ghost use Rattle.wc_parse_field.specs.Drafting.Fields.{no_locals, with_local, take_local};

use std::alloc::{AllocError, Global};
use std::mem::replace;
use wc_parse_code::{Word, identifier_of};
use wc_surface::{Id, Local, TextLocals};
use wc_symbols::Value;
use wc_syntax::Role;

/// The locals so far, and the identifier of the one that follows (Core 1.0, 6.6.5).
#[derive(Drop)]
pub struct LocalsDraft<'a> {
    pub(crate) id: Option<Id<'a>>,
    pub(crate) locals: TextLocals<'a>,
}

impl<'a> LocalsDraft<'a> {
    /// No local so far. It takes no memory.
    pub(crate) fn new(alloc: Global) -> LocalsDraft<'a>
        ensures { result ≡ no_locals }
    {
        LocalsDraft {
            id: None,
            locals: TextLocals::new(alloc),
        }
    }

    /// No local so far. It takes no memory.
    pub(crate) fn restart(&mut self, alloc: Global)
        ensures { self.new ≡ no_locals }
    {
        self.id = None;
        drop(replace(&mut self.locals, TextLocals::new(alloc)));
    }

    /// An identifier, or the type of a local. The error is want of memory.
    pub(crate) fn take(&mut self, role: Role, word: &Word<'a>) -> Result<(), AllocError>
        ensures { OnOk result (self.new ≡ take_local self.old role word.now) }
    {
        match role {
            Role::LocalId => self.id = Some(identifier_of(word)),
            Role::LocalType => return self.take_type(word.symbol.value, word.token),
            _ => {}
        }
        Ok(())
    }

    /// One more local, which has the identifier before it. The error is want of memory.
    fn take_type(&mut self, value: Value, token: u32) -> Result<(), AllocError>
        ensures { OnOk result (self.new ≡ with_local value token self.old) }
    {
        let Value::ValType(ty) = value else {
            return Ok(());
        };
        let id = self.id.take();
        self.locals.push(Local { id, ty, token })
    }
}
