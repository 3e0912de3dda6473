//! The locals of a function where they stand in a row.

ghost use Rattle.std.specs.Prelude.{◌≡◌, ◌≤◌, length};
ghost use Rattle.wc_ast.specs.Standard.LocalGroups.{written_out, IsGrouped, locals_limit};
ghost use Rattle.wc_ast.specs.Kept.Locals.{IsLocals};

use crate::locals::Group;
use std::marker::Model;

/// The declared locals of a function (Core 1.0, 2.5.3), where they stand in a row. A contract sees the type of each, in
/// order.
#[derive(Drop)]
pub struct LocalsRef<'a> {
    groups: &'a [Group],
    total: u32,
}

impl<'a> Model for LocalsRef<'a> {
    ghost use Rattle.std.specs.Prelude.{List as Seq};
    ghost use Rattle.wc_ops.specs.declared.val_type.ValType.{ValType};

    ghost Value = { Seq ValType };

    ghost use Rattle.wc_ast.specs.Standard.LocalGroups.{written_out};
    ghost use Rattle.wc_ast.specs.Kept.Locals.{IsLocals};

    ghost view = { λ locals. written_out locals.groups.now };

    ghost invariant = { λ locals. IsLocals locals.groups.now locals.total };
}

impl<'a> LocalsRef<'a> {
    pub(crate) fn of_groups(groups: &'a [Group], total: u32) -> LocalsRef<'a>
        requires { IsLocals groups.now total }
        ensures { result ≡ written_out groups.now }
    {
        LocalsRef { groups, total }
    }

    /// How many locals there are.
    pub fn len(&self) -> u32
        ensures count { result ≡ length self.now }
        ensures within { result ≤ locals_limit }
    {
        self.total
    }

    /// The groups, in order: none is empty, and neighbours differ in type.
    pub fn groups(&self) -> &'a [Group]
        ensures written_out { written_out result.now ≡ self.now }
        ensures grouped { IsGrouped result.now }
        ensures within { length self.now ≤ locals_limit }
    {
        self.groups
    }
}
