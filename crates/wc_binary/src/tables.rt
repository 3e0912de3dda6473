//! The tables of a module, as they are read.

ghost use Rattle.std.specs.Prelude.{◌≡◌, List as Seq};
ghost use Rattle.wc_ast.specs.declared.limits.Limits.{Limits};

use std::marker::Model;
use wc_ast::{Limits, List};

/// The types of tables (Core 1.0, 5.3.6). A contract sees their limits in order, as the module keeps them.
#[derive(Drop)]
pub struct Tables {
    limits: List<Limits>,
}

impl Model for Tables {
    ghost Value = { Seq Limits };

    ghost view = { λ tables. tables.limits };
}

impl Tables {
    /// The tables of these limits.
    pub fn from_limits(limits: List<Limits>) -> Tables
        ensures { result ≡ limits }
    {
        Tables { limits }
    }

    /// The limits, with the memory that they stand in.
    pub fn into_limits(self) -> List<Limits>
        ensures { result ≡ self }
    {
        let Tables { limits } = self;
        limits
    }
}
