//! Imports.

ghost use Rattle.std.specs.Prelude.{◌≡◌, IfOk};

use crate::limits::{GlobalType, Limits};
use crate::name::Name;
use std::alloc::AllocError;
use wc_body::TryClone;

/// What is imported, and its type (Core 1.0, 2.5.11).
#[derive(Clone, Copy, Debug, PartialEq, Eq)]
pub enum Desc {
    /// A function, with the index of its type.
    Func(u32),
    Table(Limits),
    Memory(Limits),
    Global(GlobalType),
}

/// An import: the module and the name in it, and what is expected there (Core 1.0, 2.5.11).
#[derive(Drop)]
pub struct Import {
    pub module: Name,
    pub name: Name,
    pub desc: Desc,
}

impl TryClone for Import {
    fn try_clone(&self) -> Result<Import, AllocError> {
        Ok(Import {
            module: self.module.try_clone()?,
            name: self.name.try_clone()?,
            desc: self.desc,
        })
    }
}
