//! Laws of texts and faults.

ghost use Rattle.std.specs.Prelude.{◌≡◌, ◌⊎◌, ℕ, List};
ghost use Rattle.wc_syntax.specs.Standard.Deriving.{Event};
ghost use Rattle.wc_syntax.specs.Standard.Parsing.{IsText};
ghost use Rattle.wc_syntax.specs.Standard.Reasons.{FirstFault};
ghost use Rattle.wc_syntax.specs.declared.kind.Kind.{Kind as TokenKind};
ghost use Rattle.wc_syntax.specs.declared.why.SynWhy.{SynWhy as Reason};

/// Of tokens of the same kinds at most one list is kept.
pub fn one_list()
    ensures { (limit : ℕ) (kinds : List TokenKind) (es fs : List Event)
        → IsText limit kinds es → IsText limit kinds fs → es ≡ fs }
{}

/// They have at most one first fault.
pub fn one_fault()
    ensures { (limit : ℕ) (kinds : List TokenKind) (at at' : ℕ) (why why' : Reason)
        → FirstFault limit kinds at why → FirstFault limit kinds at' why' → (at ≡ at') × (why ≡ why') }
{}

/// They never have both.
pub fn never_both()
    ensures { (limit : ℕ) (kinds : List TokenKind) (es : List Event) (at : ℕ) (why : Reason)
        → IsText limit kinds es → ¬ (FirstFault limit kinds at why) }
{}

/// They always have one or the other.
pub fn always_one()
    ensures { (limit : ℕ) (kinds : List TokenKind) → ((es : List Event) × IsText limit kinds es)
        ⊎ ((at : ℕ) × (why : Reason) × FirstFault limit kinds at why) }
{}
