//! Functions as fields hold them.

ghost use Rattle.std.specs.Prelude.{◌≡◌, None, IfOk, IfSome, option_copied};
ghost use Rattle.wc_surface.specs.Kept.Funcs.{index_with, desc_with};
ghost use Rattle.wc_surface.specs.Kept.Parts.{parts_in};

use crate::code::TextCode;
use crate::field::{FuncDesc, FuncField, ImportNames};
use crate::func_parts::{FuncParts, KeptParts};
use crate::head::TextBody;
use crate::id::{Id, Index};
use crate::kept_body::KeptBody;
use crate::local::{LocalsRef, TextLocals};
use crate::signature::Signature;
use crate::text_name::TextName;
use crate::trim::trimmed_list;
use crate::type_use::{TypeUse, User};
use crate::use_ref::UseRef;
use std::alloc::{AllocError, Global};
use std::marker::Model;
use wc_ast::List;

/// What stands with the word of a function: its number, and the type behind `type` where that is a number.
#[derive(Clone, Copy, PartialEq, Eq)]
pub struct FuncWord {
    pub(crate) user: User,
    pub(crate) numbered: bool,
    pub(crate) token: u32,
    pub(crate) index_token: u32,
    pub(crate) index: u32,
}

impl FuncWord {
    /// What stands with this word, where the type behind `type` is a number, or where there is none. None where it is
    /// an identifier.
    #[inline(always)]
    pub fn of(user: User, token: u32, index: &Option<Index<'_>>) -> Option<FuncWord>
        ensures user { IfSome result (λ word. word.user ≡ user) }
        ensures token { IfSome result (λ word. word.token ≡ token) }
        ensures index { IfSome result (λ word. index_with word None ≡ index.now) }
    {
        let (numbered, index_token, value) = match index {
            None => (false, 0, 0),
            Some(Index::Number { token, value }) => (true, *token, *value),
            Some(Index::Named(_)) => return None,
        };
        Some(FuncWord {
            user,
            numbered,
            token,
            index_token,
            index: value,
        })
    }
}

/// A function (Core 1.0, 6.6.5). A contract sees its parts. What it doesn't have takes no memory.
#[derive(Drop)]
pub struct KeptFunc<'a> {
    word: FuncWord,
    signature: Signature,
    body: KeptBody<'a>,
    parts: KeptParts<'a>,
}

impl<'a> Model for KeptFunc<'a> {
    ghost use Rattle.wc_surface.specs.declared.field.FuncField.{FuncField};
    ghost use Rattle.std.specs.Coded.{codes};
    ghost use Rattle.wc_surface.specs.contracts.code.TextCode as text_code;

    ghost Value = { FuncField };

    ghost coded = { Prim.hlevel (codes, text_code.the_row.coded) };

    ghost use Rattle.wc_surface.specs.Kept.Funcs.{func_with};
    ghost use Rattle.wc_surface.specs.Kept.Parts.{parts_in};

    ghost view = { λ kept. func_with kept.word kept.signature kept.body (parts_in kept.parts) };
}

/// How a function is given, where it is seen.
#[derive(Drop)]
pub enum FuncSeen<'b, 'a> {
    Import(&'b ImportNames<'a>),
    Code {
        locals: LocalsRef<'b>,
        body: &'b KeptBody<'a>,
    },
}

impl<'a> KeptFunc<'a> {
    ghost use Rattle.wc_surface.specs.Kept.Funcs.{described, plain_func};

    /// The function of a word, of parameters and results, and of instructions alone: it has none of the parts that few
    /// functions have, and its instructions name nothing by places. It takes no memory.
    #[inline(always)]
    pub fn plain(word: FuncWord, signature: Signature, code: TextCode) -> KeptFunc<'a>
        ensures { result ≡ plain_func word signature code }
    {
        KeptFunc {
            word,
            signature,
            body: KeptBody::of_code(code),
            parts: KeptParts::Nothing,
        }
    }

    /// This function. The error is want of memory.
    pub fn new(alloc: Global, func: FuncField<'a>) -> Result<KeptFunc<'a>, AllocError>
        ensures { IfOk result (λ kept. kept ≡ func.entry) }
    {
        let FuncField {
            id,
            exports,
            ty,
            desc,
        } = func;
        let (import, locals, body) = parts_of(alloc, desc);
        let TypeUse {
            user,
            token,
            index,
            signature,
            names,
        } = ty;
        let (word, index) = word_of(user, token, index);
        let parts = FuncParts {
            id,
            exports: trimmed_list(exports),
            locals: locals.without_room(),
            index,
            names: trimmed_list(names),
            import,
        };
        Ok(KeptFunc {
            word,
            signature,
            body: KeptBody::new(alloc, body)?,
            parts: KeptParts::new(alloc, parts)?,
        })
    }

    /// Its identifier.
    #[inline(always)]
    pub fn id(&self) -> Option<&Id<'a>>
        ensures { option_copied result ≡ self.now.id }
    {
        self.parts.id()
    }

    /// The names under which it is exported.
    #[inline(always)]
    pub fn exports(&self) -> &[TextName<'a>]
        ensures { result.now ≡ self.now.exports }
    {
        self.parts.exports()
    }

    /// Its type use.
    #[inline(always)]
    pub fn ty<'b>(&'b self) -> UseRef<'b>
        ensures { result ≡ self.now.ty }
    {
        UseRef {
            user: self.word.user,
            token: self.word.token,
            index: index_of(self.word, &self.parts),
            signature: &self.signature,
            names: self.parts.names(),
        }
    }

    /// How it is given.
    pub fn desc<'b>(&'b self) -> FuncSeen<'b, 'a>
        ensures { described result ≡ self.now.desc }
    {
        match self.parts.import() {
            Some(names) => FuncSeen::Import(names),
            None => FuncSeen::Code {
                locals: self.parts.locals(),
                body: &self.body,
            },
        }
    }
}

#[inline(always)]
fn index_of<'a>(word: FuncWord, parts: &KeptParts<'a>) -> Option<Index<'a>>
    ensures { result ≡ index_with word (parts_in parts.now).index }
{
    if word.numbered {
        return Some(Index::Number {
            token: word.index_token,
            value: word.index,
        });
    }
    parts.index()
}

/// What stands with the word, and the type behind `type` where it is no number.
fn word_of<'a>(user: User, token: u32, index: Option<Index<'a>>) -> (FuncWord, Option<Index<'a>>)
    ensures user { result.0.user ≡ user }
    ensures token { result.0.token ≡ token }
    ensures index { index_with result.0 result.1 ≡ index.entry }
{
    let (numbered, index_token, value, other) = match index {
        Some(Index::Number { token, value }) => (true, token, value, None),
        other => (false, 0, 0, other),
    };
    let word = FuncWord {
        user,
        numbered,
        token,
        index_token,
        index: value,
    };
    (word, other)
}

/// The names of an import, the locals and the body: an import has no locals, and no instructions.
fn parts_of<'a>(
    alloc: Global,
    desc: FuncDesc<'a>,
) -> (Option<ImportNames<'a>>, TextLocals<'a>, TextBody<'a>)
    ensures { desc_with result.0 result.1 result.2 ≡ desc.entry }
{
    match desc {
        FuncDesc::Import(names) => (Some(names), TextLocals::new(alloc), no_body(alloc)),
        FuncDesc::Code { locals, body } => (None, locals, body),
    }
}

fn no_body<'a>(alloc: Global) -> TextBody<'a> {
    TextBody {
        code: TextCode::new(alloc),
        heads: List::new(alloc),
        uses: List::new(alloc),
        ids: List::new(alloc),
        labels: List::new(alloc),
    }
}
