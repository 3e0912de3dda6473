//! Laws of the spellings, each a contract of a function that does nothing.

ghost use Rattle.std.specs.Prelude.{ℕ, ℤ, List, Option};
ghost use Rattle.wc_leb128.specs.declared.step.Step.{Step};
ghost use Rattle.wc_leb128.specs.Standard.Integers.{U, S, IsUnfinished};
ghost use Rattle.wc_leb128.specs.Standard.Laws.{IsUnambiguous, IsOneOfThree, IsExact};
ghost use Rattle.wc_leb128.specs.Standard.Shortest.{HoldsUnsigned, HoldsSigned};
ghost use Rattle.wc_leb128.specs.Standard.Pushing.{Answers};

/// Unsigned integers (Core 1.0, 5.2.2): each spelling has one value, which its width holds, and begins no other; an
/// unfinished list is no spelling; and each list is unfinished, or a spelling, or no spelling begins with it.
pub fn unsigned_spellings()
    ensures unambiguous { (N : ℕ) → IsUnambiguous (U N) }
    ensures in_range { (N : ℕ) (a : List ℕ) (n : ℕ) → U N a n → HoldsUnsigned N n }
    ensures unfinished { (N : ℕ) (a : List ℕ) (n : ℕ) → IsUnfinished (U N) a → U N a n → ⊥ }
    ensures one_of_three { (N : ℕ) (a : List ℕ) → IsOneOfThree (U N) a }
{}

/// The same of signed integers.
pub fn signed_spellings()
    ensures unambiguous { (N : ℕ) → IsUnambiguous (S N) }
    ensures in_range { (N : ℕ) (a : List ℕ) (z : ℤ) → S N a z → HoldsSigned N z }
    ensures unfinished { (N : ℕ) (a : List ℕ) (z : ℤ) → IsUnfinished (S N) a → S N a z → ⊥ }
    ensures one_of_three { (N : ℕ) (a : List ℕ) → IsOneOfThree (S N) a }
{}

/// The answer of `Unsigned::push` is the only one that the bytes so far allow.
pub fn unsigned_answers()
    ensures { (N : ℕ) (a : List ℕ) (answer : Step ℕ) (new : Option (List ℕ)) → Answers (U N) a answer new
        → IsExact (U N) a answer }
{}

/// The answer of `Signed::push` is the only one that the bytes so far allow.
pub fn signed_answers()
    ensures { (N : ℕ) (a : List ℕ) (answer : Step ℤ) (new : Option (List ℕ)) → Answers (S N) a answer new
        → IsExact (S N) a answer }
{}
