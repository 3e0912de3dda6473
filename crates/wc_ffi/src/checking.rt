//! Whether an input is accepted.

ghost use Rattle.std.specs.Prelude.{◌≡◌, ◌≤◌};
ghost use Rattle.wc_ffi.specs.Standard.Calls.{Checks};

use crate::putting::put;
use crate::status::{DONE, NO_MEMORY, REFUSED};
use std::alloc::Global;
use wc_canon::{Refusal, accept, render};

/// Tells whether an input is accepted. The text of a refusal goes to the front of `text`, and its length in bytes to
/// `needed`; where that is more than there is room for, nothing is written to `text`.
///
/// The status is 0 where the input is accepted, 1 where it is refused, and 2 where a growth of memory was refused. With
/// 0 and 2 nothing is written to `text`, and `needed` is 0.
#[unsafe(no_mangle)]
pub extern "C" fn wcanon_check(
    alloc: Global,
    input: &[u8],
    text: &mut [u8],
    needed: &mut usize,
) -> u32
    ensures answers { Checks input.now text.old text.new needed.new result }
    ensures most { result ≤ 2 }
{
    *needed = 0;
    match accept(alloc, input) {
        Ok(()) => DONE,
        Err(Refusal::Memory) => NO_MEMORY,
        Err(refusal) => match render(alloc, &refusal) {
            Ok(rendered) => {
                put(text, needed, rendered.as_bytes());
                REFUSED
            }
            Err(_) => NO_MEMORY,
        },
    }
}
