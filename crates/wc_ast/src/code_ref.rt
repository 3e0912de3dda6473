//! Codes of functions where they stand in a row.

ghost use Rattle.std.specs.Prelude.{◌≡◌};
ghost use Rattle.std.specs.Iterator.{YieldsFirst, item_count};

use crate::codes::Span;
use crate::locals::Group;
use crate::locals_ref::LocalsRef;
use std::marker::Model;
use wc_body::{BodyRef, BodyRefs};

/// The code of a function, where it stands in a row. A contract sees the code.
#[derive(Drop)]
pub struct CodeRef<'a> {
    locals: LocalsRef<'a>,
    body: BodyRef<'a>,
}

impl<'a> Model for CodeRef<'a> {
    ghost use Rattle.wc_ast.specs.declared.codes.FuncCode.{FuncCode};
    ghost use Rattle.wc_ast.specs.contracts.codes.FuncCode as func_code;

    ghost Value = { FuncCode };

    ghost coded = { func_code.the_row.coded };

    ghost use Rattle.wc_ast.specs.Standard.Codes.{code};

    ghost view = { λ it. code it.locals it.body };
}

impl<'a> CodeRef<'a> {
    ghost use Rattle.wc_ast.specs.Standard.Codes.{code};

    pub(crate) fn of(locals: LocalsRef<'a>, body: BodyRef<'a>) -> CodeRef<'a>
        ensures { result ≡ code locals.entry body.entry }
    {
        CodeRef { locals, body }
    }

    /// The locals after the function's parameters.
    pub fn locals(&self) -> &LocalsRef<'a>
        ensures { result.now ≡ self.now.locals }
    {
        &self.locals
    }

    /// The body.
    pub fn body(&self) -> &BodyRef<'a>
        ensures { result.now ≡ self.now.body }
    {
        &self.body
    }

    pub(crate) fn into_parts(self) -> (LocalsRef<'a>, BodyRef<'a>)
        ensures { code result.0 result.1 ≡ self.entry }
    {
        let CodeRef { locals, body } = self;
        (locals, body)
    }
}

/// The codes of a row that are left, in order. Taking one takes no memory.
#[derive(Drop)]
pub struct CodeRefs<'a> {
    spans: &'a [Span],
    groups: &'a [Group],
    bodies: BodyRefs<'a>,
}

impl<'a> Model for CodeRefs<'a> {
    ghost use Rattle.std.specs.Prelude.{List as Seq};
    ghost use Rattle.std.specs.Coded.{coded_list};
    ghost use Rattle.wc_ast.specs.declared.codes.FuncCode.{FuncCode};
    ghost use Rattle.wc_ast.specs.contracts.codes.FuncCode as func_code;

    ghost Value = { Seq FuncCode };

    ghost coded = { coded_list func_code.the_row.coded };

    ghost use Rattle.wc_ast.specs.Kept.CodeRow.{codes_at, AreCodes};

    ghost view = { λ row. codes_at row.spans.now row.groups.now row.bodies };

    ghost invariant = { λ row. AreCodes row.spans.now row.groups.now row.bodies };
}

impl<'a> CodeRefs<'a> {
    ghost use Rattle.std.specs.Prelude.{List as Seq};
    ghost use Rattle.wc_ast.specs.Kept.CodeRow.{codes_at, AreCodes};

    pub(crate) fn of_row(
        spans: &'a [Span],
        groups: &'a [Group],
        bodies: BodyRefs<'a>,
    ) -> CodeRefs<'a>
        requires { AreCodes spans.now groups.now bodies }
        ensures { result ≡ codes_at spans.now groups.now bodies.entry }
    {
        CodeRefs {
            spans,
            groups,
            bodies,
        }
    }
}

impl<'a> Iterator for CodeRefs<'a> {
    type Item = CodeRef<'a>;

    ghost next_gives = { YieldsFirst (λ codes. codes) };

    ghost remaining = { item_count (λ codes. codes) };

    fn next(&mut self) -> Option<CodeRef<'a>> {
        let (span, spans) = self.spans.split_first()?;
        let body = self.bodies.next()?;
        let (groups, rest) = self.groups.split_at(span.groups as usize);
        self.spans = spans;
        self.groups = rest;
        let locals = LocalsRef::of_groups(groups, span.total as u32);
        Some(CodeRef::of(locals, body))
    }
}
