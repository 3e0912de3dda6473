//! Laws. Each function only states its law: it does nothing.

ghost use Rattle.std.specs.Prelude.{◌≡◌, ◌⊎◌, ℕ, List};
ghost use Rattle.wc_ast.specs.declared.module.Module.{Module};
ghost use Rattle.wc_surface.specs.declared.field.Field.{Field};
ghost use Rattle.wc_resolve_code.specs.declared.why.NameWhy.{NameWhy};
ghost use Rattle.wc_resolve.specs.Standard.Denoted.{FirstFault, Names};

/// The fields of a text denote one module or have one first fault, and never both.
pub fn one_answer()
    ensures one_module { (all : List Field) (m n : Module) → Names all m → Names all n → m ≡ n }
    ensures one_token { (all : List Field) (s t : ℕ) (why other : NameWhy)
        → FirstFault all s why → FirstFault all t other
        → s ≡ t }
    ensures one_reason { (all : List Field) (s t : ℕ) (why other : NameWhy) → FirstFault all s why
        → FirstFault all t other → why ≡ other }
    ensures not_both { (all : List Field) (m : Module) (t : ℕ) (why : NameWhy)
        → Names all m → FirstFault all t why → ⊥ }
    ensures always { (all : List Field)
        → ((m : Module) × Names all m) ⊎ ((t : ℕ) × ((why : NameWhy) × FirstFault all t why)) }
{}
