//! One more entry of a body whose instructions are known to fit.

ghost use Rattle.std.specs.Prelude.{◌≡◌, ◌<◌, true, length, OnOk};
ghost use Rattle.wc_body.specs.Standard.Nested.{nesting_limit};
ghost use Rattle.wc_body.specs.Standard.Draft.{step, begins, may_come};
ghost use Rattle.wc_body.specs.Standard.Entries.{mark};

use std::alloc::AllocError;
use wc_body::{BodyBuilder, BuildFault, Entry};

/// Adds an entry that may come. The error is want of memory.
#[inline(always)]
pub(crate) fn put(builder: &mut BodyBuilder, entry: Entry<'_>) -> Result<(), AllocError>
    requires comes { may_come builder.old (mark entry) ≡ true }
    requires room { begins (mark entry) ≡ true → length builder.old.around < nesting_limit }
    ensures { OnOk result (builder.new ≡ step builder.old (mark entry.entry)) }
{
    match builder.push(entry) {
        Ok(()) => Ok(()),
        Err(BuildFault::Memory) => Err(AllocError),
        Err(_) => unreachable!(),
    }
}
