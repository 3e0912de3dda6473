//! The offset of what stands inside a table or a memory.

ghost use Rattle.std.specs.Prelude.{◌≡◌, IfOk};
ghost use Rattle.wc_resolve.specs.Standard.Segments.{zero_offset as zero};

use std::alloc::{AllocError, Global};
use wc_body::{BodyBuilder, BuildFault, Constant, Entry, Instr};

/// `i32.const 0`. The error is want of memory.
pub(crate) fn zero_offset(alloc: Global) -> Result<Constant, AllocError>
    ensures { IfOk result (λ offset. offset ≡ zero) }
{
    let mut builder = BodyBuilder::new(alloc);
    match builder.push(Entry::Plain(Instr::I32Const(0))) {
        Ok(()) => {}
        Err(BuildFault::Memory) => return Err(AllocError),
        Err(_) => unreachable!(),
    }
    match builder.finish() {
        Ok(offset) => Ok(offset.into_constant()),
        Err(_) => unreachable!(),
    }
}
