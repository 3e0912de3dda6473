//! The imports of a module, in one row.

ghost use Rattle.std.specs.Prelude.{◌≡◌, IfOk};

use crate::import::Desc;
use crate::import_ref::ImportRefs;
use crate::names::Names;
use std::alloc::{AllocError, Global};
use std::marker::Model;
use wc_body::TryClone;

/// Imports, in order (Core 1.0, 2.5.11). A contract sees each.
#[derive(Drop)]
pub struct Imports {
    // Of each import: the name of the module, and the name in it.
    names: Names,
    descs: Vec<Desc>,
}

impl Model for Imports {
    ghost use Rattle.std.specs.Prelude.{List as Seq};
    ghost use Rattle.std.specs.Coded.{coded_list};
    ghost use Rattle.wc_ast.specs.declared.import.Import.{Import};
    ghost use Rattle.wc_ast.specs.contracts.import.Import as import_contract;

    ghost Value = { Seq Import };

    ghost coded = { coded_list import_contract.the_row.coded };

    ghost use Rattle.wc_ast.specs.Kept.ExternalRow.{imports_of, AreImports};

    ghost view = { λ row. imports_of row.names row.descs.items };

    ghost invariant = { λ row. AreImports row.names row.descs.items };
}

impl Imports {
    ghost use Rattle.std.specs.Prelude.{[], ◌∷◌, ◌++◌, OnOk, OnErr, length, map};
    ghost use Rattle.wc_ast.specs.Standard.Externals.{import as import_of, desc_of};

    /// No imports. It takes no memory.
    pub fn new(alloc: Global) -> Imports
        ensures { result ≡ [] }
    {
        Imports {
            names: Names::new(alloc),
            descs: Vec::new(alloc),
        }
    }

    /// How many there are.
    pub fn len(&self) -> usize
        ensures { result ≡ length self.now }
    {
        self.descs.len()
    }

    /// Adds what is asked for under this name, in the module of that name, at the end. The error is want of memory,
    /// and then the imports are as they were.
    #[inline(always)]
    pub fn push(&mut self, module: &str, name: &str, desc: Desc) -> Result<(), AllocError>
        ensures ok { OnOk result (self.new ≡ self.old ++ import_of «module».now name.now desc ∷ []) }
        ensures err { OnErr result (self.new ≡ self.old) }
    {
        self.descs.reserve(1)?;
        self.names.push_two(module, name)?;
        self.descs.push_reserved(desc);
        Ok(())
    }

    /// What each of them brings, in order. It is at hand: it takes no time.
    pub fn descs(&self) -> &[Desc]
        ensures descs { result.now ≡ map desc_of self.now }
        ensures count { length result.now ≡ length self.now }
    {
        self.descs.as_slice()
    }

    /// The imports, one by one.
    pub fn iter(&self) -> ImportRefs<'_>
        ensures { result ≡ self.now }
    {
        ImportRefs::of_row(self.names.iter(), self.descs.as_slice())
    }
}

impl TryClone for Imports {
    fn try_clone(&self) -> Result<Imports, AllocError> {
        Ok(Imports {
            names: self.names.try_clone()?,
            descs: Vec::from_slice(*self.descs.allocator(), self.descs.as_slice())?,
        })
    }
}
