//! The labels of a `br_table`.

ghost use Rattle.std.specs.Prelude.{◌≡◌, ◌<◌, ◌≤◌, ◌^◌, ◌-◌, map, length, take, drop, slice_index_or};
ghost use Rattle.std.specs.Prelude.{IfOk, OnOk};
ghost use Rattle.std.specs.List.{flat_map};
ghost use Rattle.wc_body.specs.Standard.Nested.{plain};
ghost use Rattle.wc_body.specs.Standard.Draft.{step};
ghost use Rattle.wc_spaces.specs.Kept.Labels.{IsLabels, depth_of};
ghost use Rattle.wc_spaces.specs.Standard.Least.{least_from};
ghost use Rattle.wc_resolve_code.specs.Kept.Known.{Knows};
ghost use Rattle.wc_resolve_code.specs.Standard.Contexts.{Context, Declared};
ghost use Rattle.wc_resolve_code.specs.Standard.Operands.{index_in, index_faults};
ghost use Rattle.wc_resolve_code.specs.Standard.Instructions.{table};

use crate::around::Around;
use crate::operand::index_of;
use crate::put::put;
use crate::why::NameWhy;
use std::alloc::{AllocError, Global};
use wc_body::{BodyBuilder, Entry, Instr, Labels as Branches};
use wc_ops::IndexOp;
use wc_spaces::{Labels, Noted};
use wc_surface::{Id, Operand};

/// So many of these labels, from this place on: fewer where there are fewer.
pub(crate) fn labels_of<'a>(operands: &'a [Operand], first: u32, count: u32) -> &'a [Operand]
    ensures labels { result.now ≡ take count (drop first operands.now) }
    ensures count { length result.now ≤ count }
{
    let start = (first as usize).min(operands.len());
    let rest = &operands[start..];
    let end = (count as usize).min(rest.len());
    &rest[..end]
}

/// The indices of labels, in order; each that no block has is noted. The error is want of memory.
fn indices_of(
    alloc: Global,
    around: &Around<'_, '_, '_, '_>,
    labels: &Labels<'_>,
    ids: &[Id<'_>],
    operands: &[Operand],
    noted: &mut Noted<NameWhy>,
) -> Result<Vec<u32>, AllocError>
    requires { depth_of labels.now < 2 ^ 32 }
    ensures indices { (c : Context) (ls : Declared) → Knows c around.now → IsLabels ls labels.now
        → IfOk result (λ indices. indices.items ≡ map (index_in ls ids.now) operands.now) }
    ensures noted { (c : Context) (ls : Declared) → Knows c around.now → IsLabels ls labels.now
        → OnOk result (noted.new.first ≡ least_from noted.old.first (flat_map (index_faults ls ids.now) operands.now)) }
    ensures count { IfOk result (λ indices. length indices.items ≡ length operands.now) }
{
    let mut indices = Vec::with_capacity(alloc, operands.len())?;
    for operand in operands {
        let index = index_of(around, labels, IndexOp::Br, ids, *operand, noted);
        indices.push(index)?;
    }
    Ok(indices)
}

/// The last of them, or 0.
fn last_of(indices: &[u32]) -> u32
    ensures { result ≡ slice_index_or indices.now (length indices.now - 1) 0 }
{
    indices.last().copied().unwrap_or(0)
}

/// All but the last.
fn front_of(indices: &[u32]) -> &[u32]
    ensures { result.now ≡ take (length indices.now - 1) indices.now }
{
    &indices[..indices.len().saturating_sub(1)]
}

/// Adds a branch by labels of these indices, its default last. The error is want of memory.
fn put_indices(builder: &mut BodyBuilder, indices: &[u32]) -> Result<(), AllocError>
    requires { length indices.now < 2 ^ 32 }
    ensures { OnOk result (builder.new ≡ step builder.old (plain (table indices.now))) }
{
    match Branches::of(front_of(indices)) {
        Some(branches) => put(
            builder,
            Entry::Plain(Instr::BrTable(last_of(indices), branches)),
        ),
        None => unreachable!(),
    }
}

/// Adds a branch by these labels, its default last, where the body has these identifiers. The error is want of memory.
#[inline(never)]
pub(crate) fn put_table(
    alloc: Global,
    around: &Around<'_, '_, '_, '_>,
    labels: &Labels<'_>,
    ids: &[Id<'_>],
    operands: &[Operand],
    builder: &mut BodyBuilder,
    noted: &mut Noted<NameWhy>,
) -> Result<(), AllocError>
    requires open { depth_of labels.now < 2 ^ 32 }
    requires count { length operands.now < 2 ^ 32 }
    ensures built { (c : Context) (ls : Declared) → Knows c around.now → IsLabels ls labels.now
        → OnOk result (builder.new ≡ step builder.old (plain (table (map (index_in ls ids.now) operands.now)))) }
    ensures noted { (c : Context) (ls : Declared) → Knows c around.now → IsLabels ls labels.now
        → OnOk result (noted.new.first ≡ least_from noted.old.first (flat_map (index_faults ls ids.now) operands.now)) }
    ensures around { OnOk result (builder.new.around ≡ builder.old.around) }
{
    let indices = indices_of(alloc, around, labels, ids, operands, noted)?;
    put_indices(builder, indices.as_slice())
}
