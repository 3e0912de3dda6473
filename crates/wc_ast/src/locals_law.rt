//! A law of locals. The function only states it: it does nothing.

ghost use Rattle.std.specs.Prelude.{◌≡◌, List};
ghost use Rattle.wc_ast.specs.Standard.LocalGroups.{written_out, IsGrouped};
ghost use Rattle.wc_ast.specs.declared.locals.Group.{Group};

/// Locals have one grouping in which no group is empty and neighbours differ.
pub fn one_grouping()
    ensures { (x y : List Group) → IsGrouped x → IsGrouped y → written_out x ≡ written_out y → x ≡ y }
{}
