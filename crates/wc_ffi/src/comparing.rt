//! Whether two inputs denote the same module.

ghost use Rattle.std.specs.Prelude.{◌≡◌};
ghost use Rattle.wc_ffi.specs.Standard.Calls.{CompareTells, IsComparison};

use crate::status::{A_REFUSED, B_REFUSED, DIFFERENT, DONE, NO_MEMORY};
use std::alloc::Global;
use wc_canon::{Comparison, Refusal, Side, compare};

/// Tells whether two inputs denote the same module.
///
/// The status is 0 where they do, 4 where they denote different modules, 5 where the first one is refused, 6 where only
/// the second one is, and 2 where a growth of memory was refused.
#[unsafe(no_mangle)]
pub extern "C" fn wcanon_compare(alloc: Global, a: &[u8], b: &[u8]) -> u32
    ensures answers { CompareTells a.now b.now result }
    ensures known { IsComparison result }
{
    match compare(alloc, a, b) {
        Ok(Comparison::Same) => DONE,
        Ok(Comparison::Different) => DIFFERENT,
        Err((_, Refusal::Memory)) => NO_MEMORY,
        Err((Side::A, _)) => A_REFUSED,
        Err((Side::B, _)) => B_REFUSED,
    }
}
