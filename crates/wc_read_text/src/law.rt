//! Laws of texts. Each function only states its law: it does nothing.

ghost use Rattle.std.specs.Prelude.{◌≡◌, ◌⊎◌, ℕ, List};
ghost use Rattle.wc_ast.specs.declared.module.Module.{Module};
ghost use Rattle.wc_read_text.specs.declared.fault.TextFault.{TextFault};
ghost use Rattle.wc_read_text.specs.Standard.Texts.{Txt};
ghost use Rattle.wc_read_text.specs.Standard.Faults.{FirstFault};

/// A text denotes at most one module.
pub fn one_module()
    ensures { (text : List ℕ) (m n : Module) → Txt text m → Txt text n → m ≡ n }
{}

/// A text has at most one first fault.
pub fn one_fault()
    ensures { (text : List ℕ) (f g : TextFault) → FirstFault text f → FirstFault text g → f ≡ g }
{}

/// A text that denotes a module has no fault.
pub fn never_both()
    ensures { (text : List ℕ) (m : Module) (f : TextFault) → Txt text m → FirstFault text f → ⊥ }
{}

/// Each text denotes a module or has a fault.
pub fn always_one()
    ensures { (text : List ℕ) → ((m : Module) × Txt text m) ⊎ ((f : TextFault) × FirstFault text f) }
{}
