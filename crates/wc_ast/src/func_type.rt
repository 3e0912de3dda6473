//! Function types.

ghost use Rattle.std.specs.Prelude.{◌≡◌, IfOk};

use crate::list::List;
use std::alloc::AllocError;
use wc_body::TryClone;
use wc_ops::ValType;

/// A function type (Core 2.0, 2.3.6), with any number of results.
#[derive(Drop)]
pub struct FuncType {
    pub params: List<ValType>,
    pub results: List<ValType>,
}

impl TryClone for FuncType {
    fn try_clone(&self) -> Result<FuncType, AllocError> {
        Ok(FuncType {
            params: self.params.try_copy()?,
            results: self.results.try_copy()?,
        })
    }
}
