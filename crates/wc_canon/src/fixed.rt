//! Whether an input is its own canonical bytes.

ghost use Rattle.std.specs.Prelude.{IfOk, IfErr};
ghost use Rattle.wc_canon.specs.Standard.Input.{IsRefused};
ghost use Rattle.wc_canon.specs.Standard.Fixed.{TellsCanonical};

use crate::canonical::judge_module;
use crate::denoted::{denoted_module, is_binary};
use crate::fault::Refusal;
use std::alloc::Global;
use wc_binary::encoded_length;

/// Whether an input that is accepted is its own canonical bytes: true exactly where `normalise` gives the input back.
///
/// These bytes aren't made. All others that spell the module are longer, so a binary is its own exactly where it is as
/// long. A text never is.
///
/// # Errors
/// The first fault of the input, as `normalise` tells it. `Refusal::Memory` only where a growth of memory was refused.
pub fn is_canonical(alloc: Global, input: &[u8]) -> Result<bool, Refusal>
    ensures ok { IfOk result (TellsCanonical input.now) }
    ensures err { IfErr result (IsRefused input.now) }
{
    let module = denoted_module(alloc, input)?;
    judge_module(alloc, &module)?;
    let Some(length) = encoded_length(&module) else {
        return Err(Refusal::Oversize);
    };
    if !is_binary(input) {
        return Ok(false);
    }
    Ok(input.len() as u64 == length)
}
