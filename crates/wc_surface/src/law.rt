//! What holds of keys.

ghost use Rattle.std.specs.Prelude.{◌≡◌};
ghost use Rattle.wc_ast.specs.declared.func_type.FuncType.{FuncType};
ghost use Rattle.wc_surface.specs.Standard.Keys.{key_of};

/// Function types with one key are equal.
pub fn one_key()
    ensures { (f g : FuncType) → key_of f ≡ key_of g → f ≡ g }
{}
