//! All that a text says.

ghost use Rattle.std.specs.Prelude.{◌≡◌};

use crate::field::Field;
use std::marker::Model;
use wc_ast::List;

/// The fields of a text, in its order (Core 1.0, 6.6.13). There are fewer than `2^32` fields, type uses, parameters and
/// declared locals in all, and fewer than `2^32` elements or bytes inside each table or memory.
#[derive(Drop)]
pub struct Surface<'a> {
    list: List<Field<'a>>,
}

impl<'a> Model for Surface<'a> {
    ghost use Rattle.std.specs.Prelude.{List};
    ghost use Rattle.wc_surface.specs.declared.field.Field.{Field};
    ghost use Rattle.std.specs.Coded.{codes};
    ghost use Rattle.wc_surface.specs.contracts.code.TextCode as text_code;

    ghost Value = { List Field };

    ghost coded = { Prim.hlevel (codes, text_code.the_row.coded) };

    ghost use Rattle.wc_surface.specs.Standard.Sizes.{IsSurface};

    ghost view = { λ surface. surface.list };

    ghost invariant = { λ surface. IsSurface surface.list };
}

impl<'a> Surface<'a> {
    ghost use Rattle.wc_surface.specs.Standard.Sizes.{IsSurface};

    /// These fields. It takes no memory.
    pub fn new(fields: List<Field<'a>>) -> Surface<'a>
        requires { IsSurface fields }
        ensures { result ≡ fields.entry }
    {
        Surface { list: fields }
    }

    /// The fields, in order. It takes no memory.
    pub fn fields(&self) -> &[Field<'a>]
        ensures fields { result.now ≡ self.now }
        ensures sized { IsSurface self.now }
    {
        self.list.as_slice()
    }

    /// The fields, with the memory that they stand in.
    pub fn into_fields(self) -> List<Field<'a>>
        ensures fields { result ≡ self.entry }
        ensures sized { IsSurface self.entry }
    {
        let Surface { list } = self;
        list
    }
}
