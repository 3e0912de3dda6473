//! Laws of what written fields denote. Each function only states its law: it does nothing.

ghost use Rattle.std.specs.Prelude.{◌≡◌, ◌⊎◌, ℕ, ◌≤◌, ◌^◌, ◌↔◌, List, map, length};
ghost use Rattle.wc_tokens.specs.Standard.Lexemes.{Lexeme};
ghost use Rattle.wc_ast.specs.declared.module.Module.{Module};
ghost use Rattle.wc_resolve_code.specs.declared.why.NameWhy.{NameWhy};
ghost use Rattle.wc_surface.specs.Standard.Written.Fields.{Field};
ghost use Rattle.wc_parse_field.specs.Stored.Fields.{field_as};
ghost use Rattle.wc_parse.specs.Standard.Productions.{SaysFields};
ghost use Rattle.wc_resolve.specs.Standard.Denoted.{Names, FirstFault as FirstStored};
ghost use Rattle.wc_meaning.specs.Standard.Denoted.{Means, FirstFault};
ghost use Rattle.wc_meaning.specs.Stored.Placed.{ArePlaced};

/// Written fields denote at most one module, have at most one first fault, never both, and always one.
pub fn one_answer()
    ensures one_module { (fields : List Field) (m n : Module) → Means fields m → Means fields n → m ≡ n }
    ensures one_fault { (fields : List Field) (s t : ℕ) (why other : NameWhy)
        → FirstFault fields s why → FirstFault fields t other → (s ≡ t) × (why ≡ other) }
    ensures never_both { (fields : List Field) (m : Module) (token : ℕ) (why : NameWhy)
        → Means fields m → FirstFault fields token why → ⊥ }
    ensures always { (fields : List Field) → ((m : Module) × Means fields m)
        ⊎ ((token : ℕ) × (why : NameWhy) × FirstFault fields token why) }
{}

/// Written fields denote just the modules that they denote as they are stored.
pub fn means_as_stored()
    ensures { (fields : List Field) (m : Module) → ArePlaced fields → Means fields m ↔ Names (map field_as fields) m }
{}

/// They have just the first faults that they have as they are stored.
pub fn fault_as_stored()
    ensures { (fields : List Field) (token : ℕ) (why : NameWhy) → ArePlaced fields
        → FirstFault fields token why ↔ FirstStored (map field_as fields) token why }
{}

/// In fields that tokens say, whose numbers 32 bits hold, all that instructions name is found at its places.
pub fn placed_as_said()
    ensures { (ts : List Lexeme) (fields : List Field) → length ts ≤ 2 ^ 32 → SaysFields ts fields → ArePlaced fields }
{}
