//! Fields that are being said.

ghost use Rattle.std.specs.Prelude.{◌≡◌, OnOk};
ghost use Rattle.wc_symbols.specs.Standard.Strings.{bytes_in};
ghost use Rattle.wc_parse_field.specs.Drafting.Fields.{started, begun, take_string, take_word};

use crate::code_draft::CodeDraft;
use crate::contents::Contents;
use crate::locals_draft::LocalsDraft;
use crate::name::name_of;
use crate::names::Names;
use crate::parts::{described, first_import, with_max, with_min, with_value_type};
use std::alloc::{AllocError, Global};
use wc_ast::{ExportKind, GlobalType, Limits};
use wc_ops::ValType;
use wc_parse_code::{UseDraft, Word, number_in};
use wc_surface::User;
use wc_symbols::StringValue;
use wc_syntax::{Kind, Role};

/// A field that is being said (Core 1.0, 6.6.2 to 6.6.12). `take_word` and `take_string` say what each kept token adds.
#[derive(Drop)]
pub struct FieldDraft<'a> {
    // The kind and the number of its word.
    pub(crate) kind: Kind,
    pub(crate) token: u32,
    pub(crate) names: Names<'a>,
    // What an import brings or an export lends.
    pub(crate) description: ExportKind,
    pub(crate) ty: UseDraft<'a>,
    pub(crate) locals: LocalsDraft<'a>,
    pub(crate) limits: Limits,
    pub(crate) global: GlobalType,
    pub(crate) contents: Contents<'a>,
    pub(crate) code: CodeDraft<'a>,
}

impl<'a> FieldDraft<'a> {
    /// The field of this word, of which nothing else is said yet. It takes no memory.
    pub fn new(alloc: Global, kind: Kind, token: u32) -> FieldDraft<'a>
        ensures { result ≡ started kind token }
    {
        FieldDraft {
            kind,
            token,
            names: Names::new(alloc, first_import(kind, token)),
            description: ExportKind::Func,
            ty: UseDraft::new(alloc, User::Func, token),
            locals: LocalsDraft::new(alloc),
            limits: Limits { min: 0, max: None },
            global: GlobalType {
                ty: ValType::I32,
                mutable: false,
            },
            contents: Contents::new(alloc),
            code: CodeDraft::new(alloc),
        }
    }

    /// A field of this word begins. It takes no memory.
    #[inline(always)]
    pub fn begin(&mut self, kind: Kind, token: u32)
        ensures { self.new ≡ begun kind token self.old }
    {
        self.kind = kind;
        self.token = token;
        self.names.imported = first_import(kind, token);
        self.ty.begin(token);
    }

    /// The draft is that of a field of this word, of which nothing else is said yet. It takes no memory.
    pub(crate) fn restart(&mut self, alloc: Global, kind: Kind, token: u32)
        ensures { self.new ≡ started kind token }
    {
        self.kind = kind;
        self.token = token;
        self.names.restart(alloc, first_import(kind, token));
        self.description = ExportKind::Func;
        self.ty.restart(User::Func, token);
        self.locals.restart(alloc);
        self.limits = Limits { min: 0, max: None };
        self.global = GlobalType {
            ty: ValType::I32,
            mutable: false,
        };
        self.contents.restart(alloc);
        self.code.restart();
    }

    /// A string, by what it stands for. The error is want of memory.
    pub fn take_string(
        &mut self,
        alloc: Global,
        role: Role,
        value: StringValue<'a>,
    ) -> Result<(), AllocError>
        ensures { OnOk result (self.new ≡ take_string self.old role (bytes_in value.entry)) }
    {
        match role {
            Role::ExportName => return self.names.take_export(alloc, self.kind, name_of(value)),
            Role::ModuleName => self.names.module = name_of(value),
            Role::ItemName => self.names.item = name_of(value),
            Role::Bytes => return self.contents.take_value(alloc, value),
            _ => {}
        }
        Ok(())
    }

    /// Any kept token but a string. The error is want of memory.
    #[inline(always)]
    pub fn take_word(&mut self, role: Role, word: &Word<'a>) -> Result<(), AllocError>
        ensures { OnOk result (self.new ≡ take_word self.old role word.now) }
    {
        match role {
            Role::Plain
            | Role::HeldPlain
            | Role::HeldEnd
            | Role::Begin
            | Role::HeldBegin
            | Role::Then
            | Role::Else
            | Role::End
            | Role::Label
            | Role::EndLabel
            | Role::Index
            | Role::MemOffset
            | Role::MemAlign
            | Role::Literal => self.code.take(role, word),
            Role::TypeIndex | Role::ParamId | Role::ParamType | Role::ResultType => {
                self.take_use_part(role, word)
            }
            _ => self.take_part(role, word),
        }
    }
}

impl<'a> FieldDraft<'a> {
    ghost use Rattle.wc_parse_field.specs.Drafting.Fields.{with_use_part, take_part};

    /// A part of the field's own type use, or of one inside of an instruction. The error is want of memory.
    fn take_use_part(&mut self, role: Role, word: &Word<'a>) -> Result<(), AllocError>
        ensures { OnOk result (self.new ≡ with_use_part self.old.code.begun self.old role word.now) }
    {
        if self.code.begun {
            self.code.take(role, word)
        } else {
            self.ty.take(role, word)
        }
    }

    /// A part of the field itself. The error is want of memory.
    fn take_part(&mut self, role: Role, word: &Word<'a>) -> Result<(), AllocError>
        ensures { OnOk result (self.new ≡ take_part self.old role word.now) }
    {
        match role {
            Role::FieldId | Role::ImportWord => self.names.take_word(role, word),
            Role::Description => self.description = described(word.symbol.kind, self.description),
            Role::LocalId | Role::LocalType => return self.locals.take(role, word),
            Role::LimitsMin => self.limits = with_min(number_in(word.symbol.value), self.limits),
            Role::LimitsMax => self.limits = with_max(number_in(word.symbol.value), self.limits),
            Role::Mutable => self.global.mutable = true,
            Role::GlobalType => self.global = with_value_type(word.symbol.value, self.global),
            Role::Segment | Role::Target | Role::Element => {
                return self.contents.take_word(role, word);
            }
            _ => {}
        }
        Ok(())
    }
}
