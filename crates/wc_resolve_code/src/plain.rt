//! Instructions in which none is nested.

ghost use Rattle.std.specs.Prelude.{◌≡◌, ◌<◌, ◌^◌, OnOk};
ghost use Rattle.std.specs.Option.{unwrap_or};
ghost use Rattle.wc_ops.specs.Standard.Opcodes.{memory};
ghost use Rattle.wc_body.specs.Standard.Nested.{plain};
ghost use Rattle.wc_body.specs.Standard.Draft.{step};
ghost use Rattle.wc_spaces.specs.Kept.Labels.{IsLabels, depth_of};
ghost use Rattle.wc_spaces.specs.Standard.Least.{least_from};
ghost use Rattle.wc_resolve_code.specs.Kept.Known.{Knows};
ghost use Rattle.wc_resolve_code.specs.Standard.Contexts.{Context, Declared};
ghost use Rattle.wc_body.specs.declared.instr.Instr.TheVariants.{Index as index_instr};
ghost use Rattle.wc_surface.specs.declared.instr.Operand.TheVariants.{Named as named};
ghost use Rattle.wc_resolve_code.specs.Standard.Operands.{space_of, index_in, index_faults};
ghost use Rattle.wc_resolve_code.specs.Standard.Instructions.{type_at, resolved_instr, instr_faults};

use crate::around::Around;
use crate::operand::index_of;
use crate::put::put;
use crate::table::{labels_of, put_table};
use crate::why::NameWhy;
use std::alloc::{AllocError, Global};
use wc_body::{BodyBuilder, Entry, Instr, MemArg};
use wc_ops::{IndexOp, MemOp};
use wc_spaces::{Labels, Noted};
use wc_surface::{Id, KeptBody, Operand, TextInstr};

/// The index of the type of the type use of this place.
#[inline(always)]
pub(crate) fn index_of_type(around: &Around<'_, '_, '_, '_>, place: u32) -> u32
    ensures { (c : Context) → Knows c around.now → result ≡ type_at c place }
{
    around.uses.get(place as usize).copied().unwrap_or(0)
}

/// Where a load or a store reads or writes.
#[inline(always)]
fn access(op: MemOp, align: Option<u8>, offset: Option<u32>) -> MemArg
    ensures align { result.align ≡ unwrap_or align (memory op).alignment }
    ensures offset { result.offset ≡ unwrap_or offset 0 }
{
    MemArg {
        align: match align {
            Some(exponent) => u32::from(exponent),
            None => op.natural_alignment(),
        },
        offset: offset.unwrap_or(0),
    }
}

/// Adds an instruction that names the identifier of this place, where the body has these; one that nothing has is
/// noted. The error is want of memory.
// Never inlined: the way of an index, which most instructions go, has then no test of what it is of.
#[inline(never)]
fn put_named(
    around: &Around<'_, '_, '_, '_>,
    labels: &Labels<'_>,
    ids: &[Id<'_>],
    builder: &mut BodyBuilder,
    op: IndexOp,
    at: u32,
    noted: &mut Noted<NameWhy>,
) -> Result<(), AllocError>
    requires { depth_of labels.now < 2 ^ 32 }
    ensures built { (c : Context) (ls : Declared) → Knows c around.now → IsLabels ls labels.now → OnOk result
        (builder.new ≡ step builder.old (plain (index_instr op (index_in (space_of c ls op) ids.now (named at))))) }
    ensures noted { (c : Context) (ls : Declared) → Knows c around.now → IsLabels ls labels.now → OnOk result
        (noted.new.first ≡ least_from noted.old.first (index_faults (space_of c ls op) ids.now (named at))) }
    ensures around { OnOk result (builder.new.around ≡ builder.old.around) }
{
    let index = index_of(around, labels, op, ids, Operand::Named(at), noted);
    put(builder, Entry::Plain(Instr::Index(op, index)))
}

/// Adds an instruction with its numbers; each identifier that nothing has is noted. The error is want of memory.
#[inline(always)]
pub(crate) fn put_plain(
    alloc: Global,
    around: &Around<'_, '_, '_, '_>,
    labels: &Labels<'_>,
    body: &KeptBody<'_>,
    builder: &mut BodyBuilder,
    instr: TextInstr,
    noted: &mut Noted<NameWhy>,
) -> Result<(), AllocError>
    requires { depth_of labels.now < 2 ^ 32 }
    ensures built { (c : Context) (ls : Declared) → Knows c around.now → IsLabels ls labels.now
        → OnOk result (builder.new ≡ step builder.old (plain (resolved_instr c body.now ls instr))) }
    ensures noted { (c : Context) (ls : Declared) → Knows c around.now → IsLabels ls labels.now
        → OnOk result (noted.new.first ≡ least_from noted.old.first (instr_faults c body.now ls instr)) }
    ensures around { OnOk result (builder.new.around ≡ builder.old.around) }
{
    match instr {
        TextInstr::Simple(op) => put(builder, Entry::Plain(Instr::Simple(op))),
        TextInstr::Index(op, Operand::Number(index)) => {
            put(builder, Entry::Plain(Instr::Index(op, index)))
        }
        TextInstr::Index(op, Operand::Named(at)) => {
            put_named(around, labels, body.ids(), builder, op, at, noted)
        }
        TextInstr::Access { op, align, offset } => {
            let argument = access(op, align, offset);
            put(builder, Entry::Plain(Instr::Mem(op, argument)))
        }
        TextInstr::BrTable { first, count } => {
            let operands = labels_of(body.labels(), first, count);
            put_table(alloc, around, labels, body.ids(), operands, builder, noted)
        }
        TextInstr::CallIndirect(place) => {
            let index = index_of_type(around, place);
            put(builder, Entry::Plain(Instr::CallIndirect(index)))
        }
        TextInstr::I32Const(n) => put(builder, Entry::Plain(Instr::I32Const(n))),
        TextInstr::I64Const(n) => put(builder, Entry::Plain(Instr::I64Const(n))),
    }
}
