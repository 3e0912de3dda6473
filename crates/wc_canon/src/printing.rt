//! The text of an input.

ghost use Rattle.std.specs.Prelude.{◌≡◌, ◌⊎◌, ◌≤◌, ℕ, List, length, IfOk, IfErr, MatchResult};
ghost use Rattle.std.specs.String.{string_bytes};
ghost use Rattle.wc_ast.specs.declared.module.Module.{Module};
ghost use Rattle.wc_print.specs.Standard.Layout.{layout};
ghost use Rattle.wc_print.specs.Standard.Printed.{text as printed_text};
ghost use Rattle.wc_tokens.specs.Standard.Lexemes.{longest};
ghost use Rattle.wc_canon.specs.Standard.Input.{Means, HasAnswer, HasFault, IsRefused};
ghost use Rattle.wc_canon.specs.Standard.Printing.{HasText};

use crate::denoted::accepted_module;
use crate::fault::Refusal;
use std::alloc::Global;
use wc_readback::text_of;

/// The text of the module that the input denotes (Core 1.0, chapter 6), in the layout of `docs/FORMAT.md`, or else the
/// one first fault of the input. Inputs that denote the same module have the same text.
///
/// # Errors
/// As those of `normalise`: exactly the inputs that it refuses, by the same refusal. `Refusal::Memory` only where a
/// growth of memory was refused.
pub fn to_text(alloc: Global, input: &[u8]) -> Result<String, Refusal>
    ensures ok { IfOk result (λ it. HasText input.now (string_bytes it)) }
    ensures err { IfErr result (IsRefused input.now) }

    // Each input that denotes a module is answered so, and each one with a fault is refused by it.
    ensures only { (m : Module) → Means input.now m
        → MatchResult result (λ it. string_bytes it ≡ printed_text (layout m)) (λ f. f ≡ Refusal.Memory) }
    ensures only_fault { (fault : Refusal) → HasFault input.now fault
        → MatchResult result (λ _. ⊥) (λ f. (f ≡ Refusal.Memory) ⊎ (f ≡ fault)) }

    // The text has the same canonical bytes as the input, where it isn't longer than a text may be.
    ensures again { IfOk result (λ it. length (string_bytes it) ≤ longest
        → (b : List ℕ) → HasAnswer input.now b → HasAnswer (string_bytes it) b) }
{
    let module = accepted_module(alloc, input)?;
    Ok(text_of(alloc, &module)?)
}
