//! The text of an input.

ghost use Rattle.std.specs.Prelude.{◌≡◌, ◌≤◌, ℕ, List, length, take};
ghost use Rattle.wc_tokens.specs.Standard.Lexemes.{longest};
ghost use Rattle.wc_canon.specs.Standard.Input.{HasAnswer};
ghost use Rattle.wc_ffi.specs.Standard.Calls.{Prints};

use crate::normalising::refused;
use crate::putting::put;
use crate::status::{DONE, SHORT};
use std::alloc::Global;
use wc_canon::to_text;

/// Writes the text of the module that an input denotes to the front of `out`, and its length in bytes to `needed`.
///
/// The status is 0 where this was done; 1 where the input is refused; 2 where a growth of memory was refused; 3 where
/// there is a text, and `out` has less room than it needs. With any but 0 nothing is written to `out`, and with 1 and 2
/// `needed` is 0. No room that is known before is always enough: call once without room to learn how much is.
#[unsafe(no_mangle)]
pub extern "C" fn wcanon_to_text(
    alloc: Global,
    input: &[u8],
    out: &mut [u8],
    needed: &mut usize,
) -> u32
    ensures answers { Prints input.now out.old out.new needed.new result }
    ensures most { result ≤ 3 }

    // What is written has the same canonical bytes as the input, where it isn't longer than a text may be.
    ensures again { result ≡ 0 → needed.new ≤ longest
        → (b : List ℕ) → HasAnswer input.now b → HasAnswer (take needed.new out.new) b }
{
    match to_text(alloc, input) {
        Ok(text) => {
            if put(out, needed, text.as_bytes()) {
                DONE
            } else {
                SHORT
            }
        }
        Err(refusal) => {
            *needed = 0;
            refused(&refusal)
        }
    }
}
