//! Segments, which fill tables and memories.

ghost use Rattle.std.specs.Prelude.{◌≡◌, IfOk};

use crate::list::List;
use std::alloc::AllocError;
use wc_body::{Constant, TryClone};

/// An element segment (Core 1.0, 2.5.7).
#[derive(Drop)]
pub struct Elem {
    /// The index of the table.
    pub table: u32,
    /// Where the segment begins, in elements.
    pub offset: Constant,
    /// Indices of functions.
    pub funcs: List<u32>,
}

impl TryClone for Elem {
    fn try_clone(&self) -> Result<Elem, AllocError> {
        Ok(Elem {
            table: self.table,
            offset: self.offset.try_clone()?,
            funcs: self.funcs.try_copy()?,
        })
    }
}

/// A data segment (Core 1.0, 2.5.8).
#[derive(Drop)]
pub struct Data {
    /// The index of the memory.
    pub memory: u32,
    /// Where the segment begins, in bytes.
    pub offset: Constant,
    pub bytes: List<u8>,
}

impl TryClone for Data {
    fn try_clone(&self) -> Result<Data, AllocError> {
        Ok(Data {
            memory: self.memory,
            offset: self.offset.try_clone()?,
            bytes: self.bytes.try_copy()?,
        })
    }
}
