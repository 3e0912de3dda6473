//! What stands in segments.

ghost use Rattle.std.specs.Prelude.{◌≡◌, OnOk};
ghost use Rattle.wc_symbols.specs.Standard.Strings.{bytes_in};
ghost use Rattle.wc_parse_field.specs.Drafting.Fields.{no_contents, with_bytes, take_content};

use std::alloc::{AllocError, Global};
use std::mem::replace;
use wc_ast::List;
use wc_parse_code::{Word, index_of};
use wc_surface::Index;
use wc_symbols::StringValue;
use wc_syntax::Role;

/// What a segment is of and holds, also one inside a table or a memory; and what an export or a start is of (Core 1.0,
/// 6.6.9 to 6.6.12).
#[derive(Drop)]
pub struct Contents<'a> {
    // Whether elements or bytes stand inside a table or a memory.
    pub(crate) inside: bool,
    pub(crate) target: Option<Index<'a>>,
    pub(crate) elements: List<Index<'a>>,
    pub(crate) bytes: List<u8>,
}

impl<'a> Contents<'a> {
    /// Nothing so far. It takes no memory.
    pub(crate) fn new(alloc: Global) -> Contents<'a>
        ensures { result ≡ no_contents }
    {
        Contents {
            inside: false,
            target: None,
            elements: List::new(alloc),
            bytes: List::new(alloc),
        }
    }

    /// Nothing so far. It takes no memory.
    pub(crate) fn restart(&mut self, alloc: Global)
        ensures { self.new ≡ no_contents }
    {
        self.inside = false;
        self.target = None;
        drop(replace(&mut self.elements, List::new(alloc)));
        self.bytes = List::new(alloc);
    }

    /// What it is of, one more element, or the word of a segment inside. The error is want of memory.
    pub(crate) fn take_word(&mut self, role: Role, word: &Word<'a>) -> Result<(), AllocError>
        ensures { OnOk result (self.new ≡ take_content self.old role word.now) }
    {
        match role {
            Role::Segment => self.inside = true,
            Role::Target => self.target = Some(index_of(word)),
            Role::Element => self.elements.push(index_of(word))?,
            _ => {}
        }
        Ok(())
    }

    /// More bytes: what a string stands for. The error is want of memory.
    pub(crate) fn take_value(
        &mut self,
        alloc: Global,
        value: StringValue<'_>,
    ) -> Result<(), AllocError>
        ensures { OnOk result (self.new ≡ with_bytes (bytes_in value.entry) self.old) }
    {
        match value {
            StringValue::Plain(text) => self.take_bytes(alloc, text.as_bytes()),
            StringValue::Own(text) => self.take_own_bytes(alloc, text.into_bytes()),
            StringValue::Bytes(bytes) => self.take_own_bytes(alloc, bytes),
        }
    }

    /// More bytes in memory of their own. The first ones keep it. The error is want of memory.
    fn take_own_bytes(&mut self, alloc: Global, more: Vec<u8>) -> Result<(), AllocError>
        ensures { OnOk result (self.new ≡ with_bytes more.items self.old) }
    {
        if self.bytes.is_empty() {
            self.bytes = List::from_vec(more);
            return Ok(());
        }
        self.take_bytes(alloc, more.as_slice())
    }

    /// More bytes. The error is want of memory.
    fn take_bytes(&mut self, alloc: Global, more: &[u8]) -> Result<(), AllocError>
        ensures { OnOk result (self.new ≡ with_bytes more.now self.old) }
    {
        let mut bytes = replace(&mut self.bytes, List::new(alloc)).into_vec();
        bytes.extend_from_slice(more)?;
        self.bytes = List::from_vec(bytes);
        Ok(())
    }
}
