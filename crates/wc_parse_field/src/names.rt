//! The names of a field.

ghost use Rattle.std.specs.Prelude.{◌≡◌, None, IsTrue, OnOk, []};
ghost use Rattle.wc_parse_field.specs.Drafting.Fields.{unnamed, with_export, with_inline_export, take_name};
ghost use Rattle.wc_parse_field.specs.Drafting.Finished.{asked, asked_at};

use std::alloc::{AllocError, Global};
use std::mem::replace;
use wc_ast::List;
use wc_parse_code::{Word, identifier_of};
use wc_surface::{Id, ImportNames, TextName};
use wc_syntax::{Kind, Role};

/// The identifier of a field, and the names under which it is exported or imported (Core 1.0, 6.6.4 to 6.6.9).
#[derive(Drop)]
pub struct Names<'a> {
    pub(crate) id: Option<Id<'a>>,
    // The names of inline exports.
    pub(crate) exports: List<TextName<'a>>,
    // The number of the word `import`, and the names behind it. An export's own name stands in the second one.
    pub(crate) imported: Option<u32>,
    pub(crate) module: TextName<'a>,
    pub(crate) item: TextName<'a>,
}

impl<'a> Names<'a> {
    /// No name so far; the number of the word `import`, where there is one. It takes no memory.
    pub(crate) fn new(alloc: Global, imported: Option<u32>) -> Names<'a>
        ensures { result ≡ unnamed imported }
    {
        Names {
            id: None,
            exports: List::new(alloc),
            imported,
            module: no_name(),
            item: no_name(),
        }
    }

    /// No name any more; the number of the word `import`, where there is one. It takes no memory.
    pub(crate) fn restart(&mut self, alloc: Global, imported: Option<u32>)
        ensures { self.new ≡ unnamed imported }
    {
        self.id = None;
        if !self.exports.is_empty() {
            drop(replace(&mut self.exports, List::new(alloc)));
        }
        self.imported = imported;
        self.module = no_name();
        self.item = no_name();
    }

    /// The name of an export field, or of one more inline export. The error is want of memory.
    pub(crate) fn take_export(
        &mut self,
        alloc: Global,
        kind: Kind,
        name: TextName<'a>,
    ) -> Result<(), AllocError>
        ensures { OnOk result (self.new ≡ with_export kind name.entry self.old) }
    {
        match kind {
            Kind::ExportWord => self.item = name,
            _ => self.push_export(alloc, name)?,
        }
        Ok(())
    }

    /// The name of one more inline export. The error is want of memory.
    // Most fields have one: it gets memory for itself, and leaves no gap in that of the process.
    fn push_export(&mut self, alloc: Global, name: TextName<'a>) -> Result<(), AllocError>
        ensures { OnOk result (self.new ≡ with_inline_export name.entry self.old) }
    {
        if self.exports.is_empty() {
            let first = List::from_vec(Vec::with_capacity(alloc, 1)?);
            drop(replace(&mut self.exports, first));
        }
        self.exports.push(name)?;
        Ok(())
    }

    /// The identifier, or the word `import`.
    pub(crate) fn take_word(&mut self, role: Role, word: &Word<'a>)
        ensures { self.new ≡ take_name self.old role word.now }
    {
        match role {
            Role::FieldId => self.id = Some(identifier_of(word)),
            Role::ImportWord => self.imported = Some(word.token),
            _ => {}
        }
    }

    /// What an import asks for, where the word `import` stands. It takes no memory.
    pub(crate) fn take_imported(&mut self) -> Option<ImportNames<'a>>
        ensures { result ≡ asked self.old.imported self.old }
    {
        match self.imported {
            Some(token) => Some(self.take_asked(token)),
            None => None,
        }
    }

    /// What an import asks for, by the number of its word. It takes no memory.
    pub(crate) fn take_asked(&mut self, token: u32) -> ImportNames<'a>
        ensures { result ≡ asked_at self.old token }
    {
        ImportNames {
            token,
            module: replace(&mut self.module, no_name()),
            item: replace(&mut self.item, no_name()),
        }
    }

    /// Whether there is no identifier, no inline export and no word `import`.
    #[inline(always)]
    pub(crate) fn is_unnamed(&self) -> bool
        ensures id { IsTrue result → self.now.id ≡ None }
        ensures exports { IsTrue result → self.now.exports ≡ [] }
        ensures imported { IsTrue result → self.now.imported ≡ None }
    {
        self.id.is_none() && self.exports.is_empty() && self.imported.is_none()
    }

    /// The second name of an import, or the name of an export field. It takes no memory.
    pub(crate) fn take_item(&mut self) -> TextName<'a>
        ensures { result ≡ self.old.item }
    {
        replace(&mut self.item, no_name())
    }
}

/// The empty name. It takes no memory.
fn no_name<'a>() -> TextName<'a>
    ensures { result ≡ [] }
{
    TextName::piece("")
}
