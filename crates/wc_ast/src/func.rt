//! Functions and global variables.

ghost use Rattle.std.specs.Prelude.{◌≡◌, IfOk};

use crate::limits::GlobalType;
use crate::locals::Locals;
use std::alloc::AllocError;
use wc_body::{Body, Constant, TryClone};

/// A function (Core 1.0, 2.5.3).
#[derive(Drop)]
pub struct Func {
    /// The index of its type.
    pub ty: u32,
    /// The locals after its parameters.
    pub locals: Locals,
    pub body: Body,
}

impl TryClone for Func {
    fn try_clone(&self) -> Result<Func, AllocError> {
        Ok(Func {
            ty: self.ty,
            locals: self.locals.try_clone()?,
            body: self.body.try_clone()?,
        })
    }
}

/// A global variable (Core 1.0, 2.5.6).
#[derive(Drop)]
pub struct Global {
    pub ty: GlobalType,
    /// Its first value.
    pub init: Constant,
}

impl TryClone for Global {
    fn try_clone(&self) -> Result<Global, AllocError> {
        Ok(Global {
            ty: self.ty,
            init: self.init.try_clone()?,
        })
    }
}
