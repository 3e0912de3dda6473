//! The canonical bytes of an input.

ghost use Rattle.std.specs.Prelude.{◌≡◌, ◌≢◌, ◌≤◌, length, true};
ghost use Rattle.wc_canon.specs.Standard.Input.{is_binary};
ghost use Rattle.wc_ffi.specs.Standard.Calls.{Normalises, refusal_status};

use crate::putting::put;
use crate::status::{DONE, NO_MEMORY, REFUSED, SHORT};
use std::alloc::Global;
use wc_canon::{Refusal, normalise};

/// Writes the canonical bytes of an input to the front of `out`, and their number in bytes to `needed`.
///
/// The status is 0 where this was done; 1 where the input is refused; 2 where a growth of memory was refused; 3 where
/// there are canonical bytes, and `out` has less room than they need. With any but 0 nothing is written to `out`, and
/// with 1 and 2 `needed` is 0. The length of a binary is always room enough for its
/// answer; that of a text may be too little, as for one without a byte.
#[unsafe(no_mangle)]
pub extern "C" fn wcanon_normalise(
    alloc: Global,
    input: &[u8],
    out: &mut [u8],
    needed: &mut usize,
) -> u32
    ensures answers { Normalises input.now out.old out.new needed.new result }
    ensures most { result ≤ 3 }
    ensures room { is_binary input.now ≡ true → length input.now ≤ length out.old → result ≢ 3 }
{
    match normalise(alloc, input) {
        Ok(bytes) => {
            if put(out, needed, &bytes) {
                DONE
            } else {
                SHORT
            }
        }
        Err(refusal) => {
            *needed = 0;
            refused(&refusal)
        }
    }
}

/// The status of a refusal.
pub(crate) fn refused(refusal: &Refusal) -> u32
    ensures { result ≡ refusal_status refusal.now }
{
    match refusal {
        Refusal::Memory => NO_MEMORY,
        _ => REFUSED,
    }
}
