//! The indices that instructions name.

ghost use Rattle.std.specs.Prelude.{◌≡◌, ◌<◌, ◌^◌, Some};
ghost use Rattle.wc_spaces.specs.Kept.Labels.{IsLabels, depth_of};
ghost use Rattle.wc_spaces.specs.Standard.Least.{least_from};
ghost use Rattle.wc_spaces.specs.Standard.Spaces.{place_of};
ghost use Rattle.wc_resolve_code.specs.Kept.Known.{Knows};
ghost use Rattle.wc_resolve_code.specs.Standard.Contexts.{Context, Declared};
ghost use Rattle.wc_resolve_code.specs.Standard.Operands.{space_of, index_in, place_or_zero, index_faults, unknown};

use crate::around::Around;
use crate::why::NameWhy;
use wc_ops::IndexOp;
use wc_spaces::{Labels, Noted};
use wc_surface::{Id, Operand};

/// The place of an identifier among what the index of the instruction is of.
#[inline(always)]
fn find(
    around: &Around<'_, '_, '_, '_>,
    labels: &Labels<'_>,
    op: IndexOp,
    text: &[u8],
) -> Option<u32>
    requires { depth_of labels.now < 2 ^ 32 }
    ensures { (c : Context) (ls : Declared) → Knows c around.now → IsLabels ls labels.now
        → result ≡ place_of text.now (space_of c ls op) }
{
    match op {
        IndexOp::Br | IndexOp::BrIf => labels.place(text),
        IndexOp::Call => around.funcs.place(text),
        IndexOp::LocalGet | IndexOp::LocalSet | IndexOp::LocalTee => around.locals.place(text),
        IndexOp::GlobalGet | IndexOp::GlobalSet => around.globals.place(text),
    }
}

/// The place of an identifier; one that nothing has is noted.
#[inline(always)]
fn place(
    around: &Around<'_, '_, '_, '_>,
    labels: &Labels<'_>,
    op: IndexOp,
    id: &Id<'_>,
    noted: &mut Noted<NameWhy>,
) -> u32
    requires { depth_of labels.now < 2 ^ 32 }
    ensures value { (c : Context) (ls : Declared) → Knows c around.now → IsLabels ls labels.now
        → result ≡ place_or_zero (space_of c ls op) (Some id.now) }
    ensures noted { (c : Context) (ls : Declared) → Knows c around.now → IsLabels ls labels.now
        → noted.new.first ≡ least_from noted.old.first (unknown (space_of c ls op) (Some id.now)) }
{
    match find(around, labels, op, id.text().as_bytes()) {
        Some(place) => place,
        None => {
            noted.note(id.token(), NameWhy::UnknownId);
            0
        }
    }
}

/// The index that an instruction names, where the body has these identifiers; an identifier that nothing has is noted.
#[inline(always)]
pub(crate) fn index_of(
    around: &Around<'_, '_, '_, '_>,
    labels: &Labels<'_>,
    op: IndexOp,
    ids: &[Id<'_>],
    operand: Operand,
    noted: &mut Noted<NameWhy>,
) -> u32
    requires { depth_of labels.now < 2 ^ 32 }
    ensures value { (c : Context) (ls : Declared) → Knows c around.now → IsLabels ls labels.now
        → result ≡ index_in (space_of c ls op) ids.now operand }
    ensures noted { (c : Context) (ls : Declared) → Knows c around.now → IsLabels ls labels.now
        → noted.new.first ≡ least_from noted.old.first (index_faults (space_of c ls op) ids.now operand) }
{
    match operand {
        Operand::Number(n) => n,
        Operand::Named(at) => match ids.get(at as usize) {
            Some(id) => place(around, labels, op, id, noted),
            None => 0,
        },
    }
}
