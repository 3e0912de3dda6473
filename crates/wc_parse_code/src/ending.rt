//! Where a body ends.

ghost use Rattle.std.specs.Prelude.{◌≡◌, IfOk, OnOk};
ghost use Rattle.wc_body.specs.Standard.Draft.{whole};
ghost use Rattle.wc_body.specs.Standard.Nested.{empty};
ghost use Rattle.wc_parse_code.specs.Drafting.Ending.{all_closed};

use crate::saying::end_in;
use std::alloc::AllocError;
use wc_ast::BuildFault;
use wc_surface::{CodeBuilder, TextCode};

/// The instructions, once all that is open has ended. The error is want of memory.
pub(crate) fn all_closed(code: &mut CodeBuilder) -> Result<TextCode, AllocError>
    ensures text { IfOk result (λ text. text ≡ all_closed code.old.around code.old.last) }
    ensures anew { OnOk result (code.new ≡ whole empty) }
{
    close_all(code)?;
    match code.finish() {
        Ok(text) => Ok(text),
        Err(BuildFault::Memory) => Err(AllocError),
        Err(_) => unreachable!(),
    }
}

/// Ends all that is open. The error is want of memory.
fn close_all(code: &mut CodeBuilder) -> Result<(), AllocError>
    ensures { OnOk result (code.new ≡ whole (all_closed code.old.around code.old.last)) }
{
    for _ in 0..code.depth() {
        end_in(code)?;
    }
    Ok(())
}
