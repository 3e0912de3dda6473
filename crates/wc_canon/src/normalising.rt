//! The answer to an input.

ghost use Rattle.std.specs.Prelude.{◌≡◌, ◌⊎◌, IfOk, IfErr, MatchResult, true};
ghost use Rattle.wc_ast.specs.declared.module.Module.{Module};
ghost use Rattle.wc_binary.specs.Standard.Module.{Canon, IsOrLonger};
ghost use Rattle.wc_canon.specs.Standard.Input.{is_binary, Means, HasAnswer, HasFault, IsRefused};

use crate::canonical::canonical_bytes;
use crate::denoted::denoted_module;
use crate::fault::Refusal;
use std::alloc::Global;

/// The canonical bytes of the module that the input denotes, to its last byte, or else the one first fault of the
/// input.
///
/// Two inputs that are accepted have equal answers exactly if they denote the same module, and an answer is its own
/// answer. An input whose first byte is 00 is judged as a binary (WebAssembly Core Specification 1.0, 5.5.15), and any
/// other as a text (6.6.13), also one without a byte; the module of either by the rules on modules (chapter 3, but for
/// the typing of instructions). Custom sections are read and left out.
///
/// # Errors
/// `Refusal::Binary` where a binary has a fault; `Refusal::Lex`, else `Refusal::Syntax`, else `Refusal::Names` where a
/// text has one; else `Refusal::Check` where the module breaks a rule; else `Refusal::Oversize` where a text denotes a
/// module that is too large for any bytes. Exactly these inputs are refused; `Refusal::Memory` comes only where a
/// growth of memory was refused.
pub fn normalise(alloc: Global, input: &[u8]) -> Result<Vec<u8>, Refusal>
    ensures ok { IfOk result (λ b. HasAnswer input.now b.items) }
    ensures err { IfErr result (IsRefused input.now) }

    // Each input that denotes a module is answered so, and each one with a fault is refused by it.
    ensures only { (m : Module) → Means input.now m
        → MatchResult result (λ b. Canon b.items m) (λ f. f ≡ Refusal.Memory) }
    ensures only_fault { (fault : Refusal) → HasFault input.now fault
        → MatchResult result (λ b. ⊥) (λ f. (f ≡ Refusal.Memory) ⊎ (f ≡ fault)) }

    // A binary is its own answer, or longer than it.
    ensures shortest { is_binary input.now ≡ true → IfOk result (λ b. IsOrLonger input.now b.items) }
{
    let module = denoted_module(alloc, input)?;
    canonical_bytes(alloc, Vec::new(alloc), &module)
}
