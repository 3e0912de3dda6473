//! Laws of answers and faults, each proved for all inputs and all modules.

ghost use Rattle.std.specs.Prelude.{◌≡◌, ◌⊎◌, ◌↔◌, ◌≤◌, List, ℕ, length, true};
ghost use Rattle.wc_ast.specs.declared.module.Module.{Module};
ghost use Rattle.wc_binary.specs.Standard.Module.{Bin};
ghost use Rattle.wc_tokens.specs.Standard.Lexemes.{longest};
ghost use Rattle.wc_canon.specs.declared.fault.Refusal.{Refusal};
ghost use Rattle.wc_canon.specs.Standard.Input.{is_binary, Means, HasAnswer, HasFault};
ghost use Rattle.wc_canon.specs.Standard.Printing.{HasText};

/// An input denotes at most one module.
pub fn one_meaning()
    ensures { (x : List ℕ) (m n : Module) → Means x m → Means x n → m ≡ n }
{}

/// Two answers are equal exactly if their inputs denote the same module.
pub fn same_bytes_same_module()
    ensures { (x y b c : List ℕ) (m n : Module) → Means x m → Means y n → HasAnswer x b → HasAnswer y c
        → (b ≡ c) ↔ (m ≡ n) }
{}

/// An answer spells the module that its input denotes, to its last byte.
pub fn answers_spell()
    ensures { (x b : List ℕ) (m : Module) → Means x m → HasAnswer x b → Bin b m }
{}

/// An answer is its own answer.
pub fn answers_are_fixed()
    ensures { (x b : List ℕ) → HasAnswer x b → HasAnswer b b }
{}

/// The printed text of an input has the input's answer, where it isn't longer than a text may be (4,294,967,295 bytes).
pub fn texts_keep_answers()
    ensures { (x t b : List ℕ) → HasText x t → length t ≤ longest → HasAnswer x b → HasAnswer t b }
{}

/// An input has at most one answer.
pub fn one_answer()
    ensures { (x b c : List ℕ) → HasAnswer x b → HasAnswer x c → b ≡ c }
{}

/// An input has at most one fault.
pub fn one_fault()
    ensures { (x : List ℕ) (f g : Refusal) → HasFault x f → HasFault x g → f ≡ g }
{}

/// An input that has an answer has no fault.
pub fn never_both()
    ensures { (x b : List ℕ) (f : Refusal) → HasAnswer x b → HasFault x f → ⊥ }
{}

/// Every input has an answer or a fault.
pub fn always_judged()
    ensures { (x : List ℕ) → ((b : List ℕ) × HasAnswer x b) ⊎ ((f : Refusal) × HasFault x f) }
{}

/// What bytes spell is never too large for its canonical bytes.
pub fn never_oversize()
    ensures { (x : List ℕ) → is_binary x ≡ true → HasFault x Refusal.Oversize → ⊥ }
{}
