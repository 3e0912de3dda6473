//! What holds of index spaces.

ghost use Rattle.std.specs.Prelude.{◌≡◌, ◌++◌, [], List, false};
ghost use Rattle.wc_surface.specs.declared.field.Field.{Field};
ghost use Rattle.wc_declare.specs.declared.kind.SpaceKind.{SpaceKind as Kind};
ghost use Rattle.wc_declare.specs.Standard.Spaces.{space as all_declared};
ghost use Rattle.wc_declare.specs.Standard.Order.{late_after, imported, defined};

/// Where no import stands behind a definition, each index space has what is imported first, and then what is defined
/// (Core 1.0, 2.5.1).
pub fn imports_first()
    ensures { (kind : Kind) (fs : List Field) → late_after false fs ≡ []
        → imported kind fs ++ defined kind fs ≡ all_declared kind fs }
{}
