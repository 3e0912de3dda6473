//! Laws of fields and faults. Each function only states its law: it does nothing.

ghost use Rattle.std.specs.Prelude.{◌≡◌, ◌⊎◌, ℕ, ◌≤◌, ◌^◌, List, length};
ghost use Rattle.wc_tokens.specs.Standard.Lexemes.{Lexeme};
ghost use Rattle.wc_tokens.specs.Standard.Tokens.{InOrder};
ghost use Rattle.wc_syntax.specs.declared.why.SynWhy.{SynWhy as Reason};
ghost use Rattle.wc_surface.specs.declared.field.Field.{Field};
ghost use Rattle.wc_surface.specs.Standard.Sizes.{IsSurface};
ghost use Rattle.wc_surface.specs.Standard.Written.Fields.{Field as WrittenField};
ghost use Rattle.wc_parse.specs.Standard.Meaning.{Syn};
ghost use Rattle.wc_parse.specs.Standard.Faults.{FirstFault};
ghost use Rattle.wc_parse.specs.Standard.Productions.{SaysFields};
ghost use Rattle.wc_parse.specs.Kept.Folds.{Folds};

/// Tokens say at most one list of fields.
pub fn one_list()
    ensures { (ts : List Lexeme) (fields others : List Field) → Syn ts fields → Syn ts others → fields ≡ others }
{}

/// They have at most one first fault.
pub fn one_fault()
    ensures { (ts : List Lexeme) (at at' : ℕ) (why why' : Reason)
        → FirstFault ts at why → FirstFault ts at' why' → (at ≡ at') × (why ≡ why') }
{}

/// They never have both.
pub fn never_both()
    ensures { (ts : List Lexeme) (fields : List Field) (at : ℕ) (why : Reason)
        → Syn ts fields → ¬ (FirstFault ts at why) }
{}

/// Tokens in the order of a text always have one or the other.
pub fn always_one()
    ensures { (ts : List Lexeme) → InOrder 0 ts → ((fields : List Field) × Syn ts fields)
        ⊎ ((at : ℕ) × (why : Reason) × FirstFault ts at why) }
{}

/// The fields that tokens say are fewer than `2^32`, with all that is in them, since each of these has a token.
pub fn few_fields()
    ensures { (ts : List Lexeme) (fields : List Field) → InOrder 0 ts → Syn ts fields → IsSurface fields }
{}

/// By the productions, tokens say at most one list of fields.
pub fn one_written_list()
    ensures { (ts : List Lexeme) (fields others : List WrittenField)
        → SaysFields ts fields → SaysFields ts others → fields ≡ others }
{}

/// By the productions, tokens say some fields exactly where their kept tokens, one after the other, give any.
pub(crate) fn always_written()
    ensures written { (ts : List Lexeme) (fields : List Field) → Folds ts fields
        → (written : List WrittenField) × SaysFields ts written }
    ensures said { (ts : List Lexeme) (written : List WrittenField) → SaysFields ts written
        → (fields : List Field) × Folds ts fields }
{}

/// Tokens whose numbers 32 bits hold say just the fields that their kept tokens, one after the other, give.
pub(crate) fn stored_as_said()
    ensures said { (ts : List Lexeme) (fields : List Field) → length ts ≤ 2 ^ 32 → Folds ts fields → Syn ts fields }
    ensures given { (ts : List Lexeme) (fields : List Field) → length ts ≤ 2 ^ 32 → Syn ts fields → Folds ts fields }
{}
