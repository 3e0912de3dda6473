//! Whether an input is accepted.

ghost use Rattle.std.specs.Prelude.{OnOk, IfErr};
ghost use Rattle.wc_canon.specs.Standard.Input.{IsAccepted, IsRefused};

use crate::denoted::accepted_module;
use crate::fault::Refusal;
use std::alloc::Global;

/// Ok exactly where `normalise` has an answer. That of a binary isn't made: what bytes spell is never too large for its
/// canonical bytes.
///
/// # Errors
/// The first fault of the input, as `normalise` tells it. `Refusal::Memory` only where a growth of memory was refused.
pub fn accept(alloc: Global, input: &[u8]) -> Result<(), Refusal>
    ensures ok { OnOk result (IsAccepted input.now) }
    ensures err { IfErr result (IsRefused input.now) }
{
    accepted_module(alloc, input)?;
    Ok(())
}
