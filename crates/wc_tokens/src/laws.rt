//! Laws of tokens and faults.

ghost use Rattle.std.specs.Prelude.{◌≡◌, ◌⊎◌, ℕ, List};
ghost use Rattle.wc_tokens.specs.Standard.Lexemes.{Lexeme, Lexes};
ghost use Rattle.wc_tokens.specs.Standard.Faults.{FirstFault};
ghost use Rattle.wc_tokens.specs.declared.fault.LexWhy.{LexWhy as Reason};

/// A text has at most one list of tokens.
pub fn one_list()
    ensures { (text : List ℕ) (ts us : List Lexeme) → Lexes text ts → Lexes text us → ts ≡ us }
{}

/// A text has at most one first fault.
pub fn one_fault()
    ensures { (text : List ℕ) (at at' : ℕ) (why why' : Reason)
        → FirstFault text at why → FirstFault text at' why' → (at ≡ at') × (why ≡ why') }
{}

/// No text has both.
pub fn never_both()
    ensures { (text : List ℕ) (ts : List Lexeme) (at : ℕ) (why : Reason)
        → Lexes text ts → ¬ (FirstFault text at why) }
{}

/// Each text has one or the other.
pub fn always_one()
    ensures { (text : List ℕ) → ((ts : List Lexeme) × Lexes text ts)
        ⊎ ((at : ℕ) × (why : Reason) × FirstFault text at why) }
{}
