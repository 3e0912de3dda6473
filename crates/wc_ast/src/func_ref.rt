//! Functions where they stand in a row.

ghost use Rattle.std.specs.Prelude.{◌≡◌, length};
ghost use Rattle.std.specs.Iterator.{YieldsFirst, item_count};

use crate::code_ref::CodeRefs;
use crate::locals_ref::LocalsRef;
use std::marker::Model;
use wc_body::BodyRef;

/// A function (Core 1.0, 2.5.3), where it stands in a row. A contract sees the function.
#[derive(Drop)]
pub struct FuncRef<'a> {
    ty: u32,
    locals: LocalsRef<'a>,
    body: BodyRef<'a>,
}

impl<'a> Model for FuncRef<'a> {
    ghost use Rattle.wc_ast.specs.declared.func.Func.{Func};
    ghost use Rattle.wc_ast.specs.contracts.func.Func as func;

    ghost Value = { Func };

    ghost coded = { func.the_row.coded };

    ghost view = { λ it. record { ty = it.ty; locals = it.locals; body = it.body } };
}

impl<'a> FuncRef<'a> {
    /// The index of its type.
    pub fn ty(&self) -> u32
        ensures { result ≡ self.now.ty }
    {
        self.ty
    }

    /// The locals after its parameters.
    pub fn locals(&self) -> &LocalsRef<'a>
        ensures { result.now ≡ self.now.locals }
    {
        &self.locals
    }

    /// Its body.
    pub fn body(&self) -> &BodyRef<'a>
        ensures { result.now ≡ self.now.body }
    {
        &self.body
    }
}

/// The functions of a row that are left, in order. Taking one takes no memory.
#[derive(Drop)]
pub struct FuncRefs<'a> {
    types: &'a [u32],
    codes: CodeRefs<'a>,
}

impl<'a> Model for FuncRefs<'a> {
    ghost use Rattle.std.specs.Prelude.{◌≡◌, List as Seq, length};
    ghost use Rattle.std.specs.Coded.{coded_list};
    ghost use Rattle.wc_ast.specs.declared.func.Func.{Func};
    ghost use Rattle.wc_ast.specs.contracts.func.Func as func;

    ghost Value = { Seq Func };

    ghost coded = { coded_list func.the_row.coded };

    ghost use Rattle.wc_ast.specs.Standard.Codes.{funcs_of};

    ghost view = { λ row. funcs_of row.types.now row.codes };

    ghost invariant = { λ row. length row.types.now ≡ length row.codes };
}

impl<'a> FuncRefs<'a> {
    ghost use Rattle.wc_ast.specs.Standard.Codes.{funcs_of};

    pub(crate) fn of_row(types: &'a [u32], codes: CodeRefs<'a>) -> FuncRefs<'a>
        requires { length types.now ≡ length codes }
        ensures { result ≡ funcs_of types.now codes.entry }
    {
        FuncRefs { types, codes }
    }
}

impl<'a> Iterator for FuncRefs<'a> {
    type Item = FuncRef<'a>;

    ghost next_gives = { YieldsFirst (λ funcs. funcs) };

    ghost remaining = { item_count (λ funcs. funcs) };

    fn next(&mut self) -> Option<FuncRef<'a>> {
        let (ty, types) = self.types.split_first()?;
        let (locals, body) = self.codes.next()?.into_parts();
        self.types = types;
        Some(FuncRef {
            ty: *ty,
            locals,
            body,
        })
    }
}
