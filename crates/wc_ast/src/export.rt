//! Exports.

ghost use Rattle.std.specs.Prelude.{◌≡◌, IfOk};

use crate::name::Name;
use std::alloc::AllocError;
use wc_body::TryClone;

/// Which index space an export's index is of (Core 1.0, 2.5.10).
#[derive(Clone, Copy, Debug, PartialEq, Eq)]
pub enum ExportKind {
    Func,
    Table,
    Memory,
    Global,
}

/// An export: a name, and the index of what it stands for (Core 1.0, 2.5.10).
#[derive(Drop)]
pub struct Export {
    pub name: Name,
    pub kind: ExportKind,
    pub index: u32,
}

impl TryClone for Export {
    fn try_clone(&self) -> Result<Export, AllocError> {
        Ok(Export {
            name: self.name.try_clone()?,
            kind: self.kind,
            index: self.index,
        })
    }
}
