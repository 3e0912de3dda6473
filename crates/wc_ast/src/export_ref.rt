//! Exports where they stand in a row.

ghost use Rattle.std.specs.Prelude.{◌≡◌};
ghost use Rattle.std.specs.Str.{IsUtf8};
ghost use Rattle.std.specs.Iterator.{YieldsFirst, item_count};

use crate::export::ExportKind;
use crate::exports::Exported;
use crate::names::NameRefs;
use std::marker::Model;

/// An export (Core 1.0, 2.5.10), where it stands in a row. A contract sees the export.
#[derive(Drop)]
pub struct ExportRef<'a> {
    name: &'a str,
    kind: ExportKind,
    index: u32,
}

impl<'a> Model for ExportRef<'a> {
    ghost use Rattle.wc_ast.specs.declared.export.Export.{Export};
    ghost use Rattle.wc_ast.specs.contracts.export.Export as export_contract;

    ghost Value = { Export };

    ghost coded = { export_contract.the_row.coded };

    ghost use Rattle.wc_ast.specs.Standard.Externals.{export as export_of};

    ghost view = { λ it. export_of it.name.now it.kind it.index };
}

impl<'a> ExportRef<'a> {
    /// Its name.
    pub fn name(&self) -> &'a str
        ensures bytes { result.now ≡ self.now.name }
        ensures utf8 { IsUtf8 self.now.name }
    {
        self.name
    }

    /// Which index space its index is of.
    pub fn kind(&self) -> ExportKind
        ensures { result ≡ self.now.kind }
    {
        self.kind
    }

    /// The index of what it stands for.
    pub fn index(&self) -> u32
        ensures { result ≡ self.now.index }
    {
        self.index
    }
}

/// The exports of a row that are left, in order. Taking one takes no memory.
#[derive(Drop)]
pub struct ExportRefs<'a> {
    names: NameRefs<'a>,
    exported: &'a [Exported],
}

impl<'a> Model for ExportRefs<'a> {
    ghost use Rattle.std.specs.Prelude.{◌≡◌, List as Seq, length};
    ghost use Rattle.std.specs.Coded.{coded_list};
    ghost use Rattle.wc_ast.specs.declared.export.Export.{Export};
    ghost use Rattle.wc_ast.specs.contracts.export.Export as export_contract;

    ghost Value = { Seq Export };

    ghost coded = { coded_list export_contract.the_row.coded };

    ghost use Rattle.wc_ast.specs.Kept.ExternalRow.{exports_of};

    ghost view = { λ row. exports_of row.names row.exported.now };

    ghost invariant = { λ row. length row.names ≡ length row.exported.now };
}

impl<'a> ExportRefs<'a> {
    ghost use Rattle.std.specs.Prelude.{length};
    ghost use Rattle.wc_ast.specs.Kept.ExternalRow.{exports_of};

    pub(crate) fn of_row(names: NameRefs<'a>, exported: &'a [Exported]) -> ExportRefs<'a>
        requires { length names ≡ length exported.now }
        ensures { result ≡ exports_of names.entry exported.now }
    {
        ExportRefs { names, exported }
    }
}

impl<'a> Iterator for ExportRefs<'a> {
    type Item = ExportRef<'a>;

    ghost next_gives = { YieldsFirst (λ exports. exports) };

    ghost remaining = { item_count (λ exports. exports) };

    #[inline]
    fn next(&mut self) -> Option<ExportRef<'a>> {
        let (it, exported) = self.exported.split_first()?;
        let name = self.names.next()?;
        self.exported = exported;
        Some(ExportRef {
            name,
            kind: it.kind,
            index: it.index,
        })
    }
}
