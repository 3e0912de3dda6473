//! The module that an input denotes.

ghost use Rattle.std.specs.Prelude.{◌≡◌, IfOk, IfErr, true, false};
ghost use Rattle.wc_canon.specs.Standard.Input.{is_binary as begins_with_zero, Denotes, Means, IsRefused};

use crate::canonical::{judge_module, judge_spelled};
use crate::fault::Refusal;
use std::alloc::Global;
use wc_ast::Module;
use wc_binary::{BinFault, decode};
use wc_read_text::read;

/// Whether an input is a binary, which its first byte tells: 00. Any other input is a text, also one without a byte.
pub(crate) fn is_binary(input: &[u8]) -> bool
    ensures { result ≡ begins_with_zero input.now }
{
    match input.first() {
        Some(byte) => *byte == 0,
        None => false,
    }
}

/// The module that a binary spells (Core 1.0, 5.5.15), or else the first fault of its bytes.
fn spelled_module(alloc: Global, input: &[u8]) -> Result<Module, Refusal>
    requires binary { begins_with_zero input.now ≡ true }
    ensures ok { IfOk result (Denotes input.now) }
    ensures err { IfErr result (IsRefused input.now) }
{
    match decode(alloc, input) {
        Ok(module) => Ok(module),
        Err(fault) => match fault {
            BinFault::Bad { at, why } => Err(Refusal::Binary { at, why }),
            BinFault::Memory => Err(Refusal::Memory),
            BinFault::Read { .. } => unreachable!(),
        },
    }
}

/// The module of a text (Core 1.0, chapter 6), or else the first fault of the text.
fn written_module(alloc: Global, input: &[u8]) -> Result<Module, Refusal>
    requires textual { begins_with_zero input.now ≡ false }
    ensures ok { IfOk result (Denotes input.now) }
    ensures err { IfErr result (IsRefused input.now) }
{
    Ok(read(alloc, input)?)
}

/// The module that the input denotes, or else the first fault of its bytes or of its text.
pub(crate) fn denoted_module(alloc: Global, input: &[u8]) -> Result<Module, Refusal>
    ensures ok { IfOk result (Denotes input.now) }
    ensures err { IfErr result (IsRefused input.now) }
{
    if is_binary(input) {
        spelled_module(alloc, input)
    } else {
        written_module(alloc, input)
    }
}

/// That the module of an input breaks no rule, and that some bytes spell it, which of a binary needs no second look.
fn judge(alloc: Global, input: &[u8], module: &Module) -> Result<(), Refusal>
    requires denoted { Denotes input.now «module».now }
    ensures ok { IfOk result (λ _. Means input.now «module».now) }
    ensures err { IfErr result (IsRefused input.now) }
{
    if is_binary(input) {
        return judge_module(alloc, module);
    }
    judge_spelled(alloc, module)
}

/// The module of an input that is accepted, or else the first fault of the input.
pub(crate) fn accepted_module(alloc: Global, input: &[u8]) -> Result<Module, Refusal>
    ensures ok { IfOk result (Means input.now) }
    ensures err { IfErr result (IsRefused input.now) }
{
    let module = denoted_module(alloc, input)?;
    judge(alloc, input, &module)?;
    Ok(module)
}
