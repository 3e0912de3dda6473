//! A law. The function only states it: it does nothing.

ghost use Rattle.std.specs.Prelude.{◌≡◌, List, None};
ghost use Rattle.std.specs.List.{All};
ghost use Rattle.wc_surface.specs.Standard.Sizes.{IsSurface};
ghost use Rattle.wc_surface.specs.declared.field.Field.{Field as FieldValue};
ghost use Rattle.wc_declare.specs.Standard.Stages.{first_fault};
ghost use Rattle.wc_resolve_func.specs.Standard.Fitting.{FieldFits};

/// The functions of a text whose declarations and types are right have room for their parameters and locals.
pub fn functions_fit()
    ensures { (fs : List FieldValue) → IsSurface fs → first_fault fs ≡ None → All (FieldFits fs) fs }
{}
