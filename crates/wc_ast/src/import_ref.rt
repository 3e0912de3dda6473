//! Imports where they stand in a row.

ghost use Rattle.std.specs.Prelude.{◌≡◌};
ghost use Rattle.std.specs.Str.{IsUtf8};
ghost use Rattle.std.specs.Iterator.{YieldsFirst, item_count};

use crate::import::Desc;
use crate::names::NameRefs;
use std::marker::Model;

/// An import (Core 1.0, 2.5.11), where it stands in a row. A contract sees the import.
#[derive(Drop)]
pub struct ImportRef<'a> {
    module: &'a str,
    name: &'a str,
    desc: Desc,
}

impl<'a> Model for ImportRef<'a> {
    ghost use Rattle.wc_ast.specs.declared.import.Import.{Import};
    ghost use Rattle.wc_ast.specs.contracts.import.Import as import_contract;

    ghost Value = { Import };

    ghost coded = { import_contract.the_row.coded };

    ghost use Rattle.wc_ast.specs.Standard.Externals.{import as import_of};

    ghost view = { λ it. import_of it.«module».now it.name.now it.desc };
}

impl<'a> ImportRef<'a> {
    /// The name of the module.
    pub fn module(&self) -> &'a str
        ensures bytes { result.now ≡ self.now.«module» }
        ensures utf8 { IsUtf8 self.now.«module» }
    {
        self.module
    }

    /// The name in that module.
    pub fn name(&self) -> &'a str
        ensures bytes { result.now ≡ self.now.name }
        ensures utf8 { IsUtf8 self.now.name }
    {
        self.name
    }

    /// What is expected there.
    pub fn desc(&self) -> Desc
        ensures { result ≡ self.now.desc }
    {
        self.desc
    }
}

/// The imports of a row that are left, in order. Taking one takes no memory.
#[derive(Drop)]
pub struct ImportRefs<'a> {
    names: NameRefs<'a>,
    descs: &'a [Desc],
}

impl<'a> Model for ImportRefs<'a> {
    ghost use Rattle.std.specs.Prelude.{List as Seq};
    ghost use Rattle.std.specs.Coded.{coded_list};
    ghost use Rattle.wc_ast.specs.declared.import.Import.{Import};
    ghost use Rattle.wc_ast.specs.contracts.import.Import as import_contract;

    ghost Value = { Seq Import };

    ghost coded = { coded_list import_contract.the_row.coded };

    ghost use Rattle.wc_ast.specs.Kept.ExternalRow.{imports_of, AreImports};

    ghost view = { λ row. imports_of row.names row.descs.now };

    ghost invariant = { λ row. AreImports row.names row.descs.now };
}

impl<'a> ImportRefs<'a> {
    ghost use Rattle.wc_ast.specs.Kept.ExternalRow.{imports_of, AreImports};

    pub(crate) fn of_row(names: NameRefs<'a>, descs: &'a [Desc]) -> ImportRefs<'a>
        requires { AreImports names descs.now }
        ensures { result ≡ imports_of names.entry descs.now }
    {
        ImportRefs { names, descs }
    }
}

impl<'a> Iterator for ImportRefs<'a> {
    type Item = ImportRef<'a>;

    ghost next_gives = { YieldsFirst (λ imports. imports) };

    ghost remaining = { item_count (λ imports. imports) };

    #[inline]
    fn next(&mut self) -> Option<ImportRef<'a>> {
        let (desc, descs) = self.descs.split_first()?;
        let module = self.names.next()?;
        let name = self.names.next()?;
        self.descs = descs;
        Some(ImportRef {
            module,
            name,
            desc: *desc,
        })
    }
}
