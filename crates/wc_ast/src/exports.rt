//! The exports of a module, in one row.

ghost use Rattle.std.specs.Prelude.{◌≡◌, IfOk};

use crate::export::ExportKind;
use crate::export_ref::ExportRefs;
use crate::names::Names;
use std::alloc::{AllocError, Global};
use std::marker::Model;
use wc_body::TryClone;

/// What is exported: the space, and the index in it.
#[derive(Clone, Copy)]
pub struct Exported {
    pub(crate) kind: ExportKind,
    pub(crate) index: u32,
}

/// Exports, in order (Core 1.0, 2.5.10). A contract sees each.
#[derive(Drop)]
pub struct Exports {
    names: Names,
    // Of each export.
    exported: Vec<Exported>,
}

impl Model for Exports {
    ghost use Rattle.std.specs.Prelude.{◌≡◌, List as Seq, length};
    ghost use Rattle.std.specs.Coded.{coded_list};
    ghost use Rattle.wc_ast.specs.declared.export.Export.{Export};
    ghost use Rattle.wc_ast.specs.contracts.export.Export as export_contract;

    ghost Value = { Seq Export };

    ghost coded = { coded_list export_contract.the_row.coded };

    ghost use Rattle.wc_ast.specs.Kept.ExternalRow.{exports_of};

    ghost view = { λ row. exports_of row.names row.exported.items };

    ghost invariant = { λ row. length row.names ≡ length row.exported.items };
}

impl Exports {
    ghost use Rattle.std.specs.Prelude.{[], ◌∷◌, ◌++◌, OnOk, OnErr, length};
    ghost use Rattle.wc_ast.specs.Standard.Externals.{export as export_of};

    /// No exports. It takes no memory.
    pub fn new(alloc: Global) -> Exports
        ensures { result ≡ [] }
    {
        Exports {
            names: Names::new(alloc),
            exported: Vec::new(alloc),
        }
    }

    /// How many there are.
    pub fn len(&self) -> usize
        ensures { result ≡ length self.now }
    {
        self.exported.len()
    }

    /// Adds what has this index in its space under this name, at the end. The error is want of memory, and then the
    /// exports are as they were.
    #[inline(always)]
    pub fn push(&mut self, name: &str, kind: ExportKind, index: u32) -> Result<(), AllocError>
        ensures ok { OnOk result (self.new ≡ self.old ++ export_of name.now kind index ∷ []) }
        ensures err { OnErr result (self.new ≡ self.old) }
    {
        self.exported.reserve(1)?;
        self.names.push(name)?;
        self.exported.push_reserved(Exported { kind, index });
        Ok(())
    }

    /// The exports, one by one.
    pub fn iter(&self) -> ExportRefs<'_>
        ensures { result ≡ self.now }
    {
        ExportRefs::of_row(self.names.iter(), self.exported.as_slice())
    }
}

impl TryClone for Exports {
    fn try_clone(&self) -> Result<Exports, AllocError> {
        Ok(Exports {
            names: self.names.try_clone()?,
            exported: Vec::from_slice(*self.exported.allocator(), self.exported.as_slice())?,
        })
    }
}
