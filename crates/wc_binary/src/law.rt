//! Laws of the binary format, each proved for all bytes and all modules.

ghost use Rattle.std.specs.Prelude.{◌≡◌, ◌≤◌, ◌⊎◌, ◌↔◌, List, ℕ, length};
ghost use Rattle.wc_ast.specs.declared.module.Module.{Module};
ghost use Rattle.wc_binary.specs.Standard.Phrase.{Halt};
ghost use Rattle.wc_binary.specs.Standard.Style.{free};
ghost use Rattle.wc_binary.specs.Standard.Module.{Bin, Canon, RisesBy, IsShortestOf, StopB};

/// Bytes spell at most one module.
pub fn one_module()
    ensures { (x : List ℕ) (m n : Module) → Bin x m → Bin x n → m ≡ n }
{}

/// Bytes have at most one first fault.
pub fn one_fault()
    ensures { (x : List ℕ) (f g : Halt) → StopB x f → StopB x g → f ≡ g }
{}

/// Bytes that spell a module have no fault.
pub fn module_or_fault()
    ensures { (x : List ℕ) (m : Module) (f : Halt) → Bin x m → StopB x f → ⊥ }
{}

/// All bytes spell a module or have a fault.
pub fn always_judged()
    ensures { (x : List ℕ) → ((m : Module) × Bin x m) ⊎ ((f : Halt) × StopB x f) }
{}

/// Sections in their order, with custom sections before, between and behind them, are sections whose ids rise.
pub fn sections_rise()
    ensures { (x : List ℕ) (m : Module) → Bin x m ↔ RisesBy free x m }
{}

/// Canonical bytes spell their module, and a module has at most one list of them.
pub fn one_canonical()
    ensures spells { (b : List ℕ) (m : Module) → Canon b m → Bin b m }
    ensures one { (b c : List ℕ) (m : Module) → Canon b m → Canon c m → b ≡ c }
{}

/// Every other list of bytes that spells a module is strictly longer than the canonical one.
pub fn shortest_and_only()
    ensures { (b : List ℕ) (m : Module) → Canon b m → IsShortestOf b m }
{}

/// What some bytes spell has canonical bytes, which are no more than these.
pub fn always_canonical()
    ensures { (x : List ℕ) (m : Module) → Bin x m → (b : List ℕ) × Canon b m × (length b ≤ length x) }
{}
