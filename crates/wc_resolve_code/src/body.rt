//! Numbers in place of identifiers, labels and type uses.

ghost use Rattle.std.specs.Prelude.{◌≡◌, IfOk, OnOk};
ghost use Rattle.wc_spaces.specs.Standard.Least.{least_from};
ghost use Rattle.wc_resolve_code.specs.Kept.Known.{Knows};
ghost use Rattle.wc_resolve_code.specs.Standard.Contexts.{Context};
ghost use Rattle.wc_resolve_code.specs.Standard.Bodies.{resolved, body_faults};

use crate::around::Around;
use crate::head::put_head;
use crate::plain::put_plain;
use crate::put::put;
use crate::why::NameWhy;
use std::alloc::{AllocError, Global};
use wc_body::{Body, BodyBuilder, Entry};
use wc_spaces::{Labels, Noted};
use wc_surface::{KeptBody, TextEntry};

/// The instructions of a body with numbers in place of identifiers, labels and type uses, and with their defaults
/// written out (Core 1.0, 6.5). An identifier that nothing has is noted, and stands for 0; so is one behind `else` or
/// `end` that isn't the label of its block. The error is want of memory: what was noted is then of no use.
pub fn resolve_body(
    alloc: Global,
    around: &Around<'_, '_, '_, '_>,
    body: &KeptBody<'_>,
    noted: &mut Noted<NameWhy>,
) -> Result<Body, AllocError>
    ensures resolved { (c : Context) → Knows c around.now → IfOk result (λ code. code ≡ resolved c body.now) }
    ensures noted { (c : Context) → Knows c around.now
        → OnOk result (noted.new.first ≡ least_from noted.old.first (body_faults c body.now)) }
{
    let mut labels = Labels::new(alloc);
    let entries = body.code().entries();
    // Most take two bytes.
    let mut builder = BodyBuilder::with_room(alloc, entries.len().saturating_mul(2))?;
    for entry in entries {
        match *entry {
            TextEntry::Plain(instr) => {
                put_plain(alloc, around, &labels, body, &mut builder, instr, noted)?;
            }
            TextEntry::Begin(kind, head) => {
                put_head(around, body, &mut labels, &mut builder, kind, head, noted)?;
            }
            TextEntry::Else => put(&mut builder, Entry::Else)?,
            TextEntry::End => {
                put(&mut builder, Entry::End)?;
                labels.leave();
            }
        }
    }
    match builder.finish_with_room() {
        Ok(resolved) => Ok(resolved),
        Err(_) => unreachable!(),
    }
}
