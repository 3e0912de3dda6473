//! Texts that are being said.

ghost use Rattle.std.specs.Prelude.{◌≡◌, OnOk};
ghost use Rattle.wc_symbols.specs.Standard.Strings.{bytes_in};
ghost use Rattle.wc_parse.specs.Kept.Texts.{nothing, with_word, take_by};

use std::alloc::{AllocError, Global};
use std::mem::replace;
use wc_ast::List;
use wc_parse_code::Word;
use wc_parse_field::FieldDraft;
use wc_surface::Field;
use wc_symbols::StringValue;
use wc_syntax::{Kind, Role};

/// A text that is being said (Core 1.0, 6.6.13). `take_by` says what each kept token adds.
#[derive(Drop)]
pub struct TextDraft<'a> {
    pub(crate) fields: List<Field<'a>>,
    pub(crate) field: FieldDraft<'a>,
}

impl<'a> TextDraft<'a> {
    /// No field so far. It takes no memory.
    pub(crate) fn new(alloc: Global) -> TextDraft<'a>
        ensures { result ≡ nothing }
    {
        TextDraft {
            fields: List::new(alloc),
            field: FieldDraft::new(alloc, Kind::OtherWord, 0),
        }
    }

    /// One more kept token, and what it stands for where it is a string. The error is want of memory.
    #[inline(always)]
    pub(crate) fn take(
        &mut self,
        alloc: Global,
        role: Role,
        word: &Word<'a>,
        value: StringValue<'a>,
    ) -> Result<(), AllocError>
        ensures { OnOk result (self.new ≡ take_by role word.now (bytes_in value.entry) self.old) }
    {
        match role {
            Role::Field => {
                self.field.begin(word.symbol.kind, word.token);
                Ok(())
            }
            Role::FieldEnd => self.end_field(alloc),
            Role::ExportName | Role::ModuleName | Role::ItemName | Role::Bytes => {
                self.field.take_string(alloc, role, value)
            }
            _ => self.field.take_word(role, word),
        }
    }

    /// One more kept token that neither begins nor ends a field and is no string. The error is want of memory.
    #[inline(always)]
    pub(crate) fn take_word(&mut self, role: Role, word: &Word<'a>) -> Result<(), AllocError>
        ensures { OnOk result (self.new ≡ with_word role word.now self.old) }
    {
        self.field.take_word(role, word)
    }
}

impl<'a> TextDraft<'a> {
    ghost use Rattle.wc_parse.specs.Kept.Texts.{with_field};
    ghost use Rattle.wc_parse.specs.Kept.Passing.{with_whole};

    /// The last field so far.
    #[inline(always)]
    pub(crate) fn last(&self) -> Option<&Field<'a>> {
        self.fields.as_slice().last()
    }

    /// One more field, which was read whole. The error is want of memory.
    pub(crate) fn push(&mut self, field: Field<'a>) -> Result<(), AllocError>
        ensures { OnOk result (self.new ≡ with_whole field.entry self.old) }
    {
        self.fields.push(field)?;
        Ok(())
    }

    /// The fields so far. It takes no memory.
    // They are taken out, so that who asks holds no draft where the text has a fault.
    pub(crate) fn take_fields(&mut self, alloc: Global) -> List<Field<'a>>
        ensures { result ≡ self.old.fields }
    {
        replace(&mut self.fields, List::new(alloc))
    }

    /// The field ends. The error is want of memory.
    fn end_field(&mut self, alloc: Global) -> Result<(), AllocError>
        ensures { OnOk result (self.new ≡ with_field self.old) }
    {
        let field = self.field.said(alloc)?;
        self.push(field)
    }
}
