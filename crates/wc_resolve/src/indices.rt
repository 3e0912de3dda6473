//! Indices.

ghost use Rattle.std.specs.Prelude.{◌≡◌, ℕ, List, Option, Some, IfOk, OnOk, option_copied};
ghost use Rattle.std.specs.Option.{unwrap_or};
ghost use Rattle.wc_spaces.specs.Standard.Least.{least_from};
ghost use Rattle.wc_spaces.specs.Standard.Spaces.{place_of};
ghost use Rattle.wc_spaces.specs.Kept.Spaces.{IsSpace};
ghost use Rattle.wc_resolve_code.specs.Standard.Operands.{unknown};
ghost use Rattle.wc_surface.specs.declared.field.Field.{Field};
ghost use Rattle.wc_declare.specs.Standard.Uses.{named_index};
ghost use Rattle.wc_declare.specs.Kept.Declaring.{AreSpaces};
ghost use Rattle.wc_resolve.specs.Standard.Indices.{declared_in, space_kind, unknown_index, index_or_zero, unknown_in};
ghost use Rattle.wc_resolve.specs.Standard.Indices.{indices_of, unknown_of};

use std::alloc::{AllocError, Global};
use wc_ast::{ExportKind, List as AstList};
use wc_declare::declared::Spaces;
use wc_resolve_code::NameWhy;
use wc_spaces::{Noted, Space};
use wc_surface::{Id, Index};

/// The index space of what is exported.
pub(crate) fn space_of<'a, 'b>(spaces: &'b Spaces<'a>, kind: ExportKind) -> &'b Space<'a>
    ensures { (all : List Field) → AreSpaces all spaces.now → IsSpace (declared_in (space_kind kind) all) result.now }
{
    match kind {
        ExportKind::Func => &spaces.funcs,
        ExportKind::Table => &spaces.tables,
        ExportKind::Memory => &spaces.memories,
        ExportKind::Global => &spaces.globals,
    }
}

/// The place of an identifier; one that nothing has is noted, and stands for 0.
fn place_of_id(space: &Space<'_>, id: &Id<'_>, noted: &mut Noted<NameWhy>) -> u32
    ensures value { (ds : List (Option (List ℕ))) → IsSpace ds space.now
        → result ≡ unwrap_or (place_of id.now.text ds) 0 }
    ensures noted { (ds : List (Option (List ℕ))) → IsSpace ds space.now
        → noted.new.first ≡ least_from noted.old.first (unknown ds (Some id.now)) }
{
    match space.place(id.text().as_bytes()) {
        Some(place) => place,
        None => {
            noted.note(id.token(), NameWhy::UnknownId);
            0
        }
    }
}

/// The index that is written; an identifier that nothing in the index space has is noted, and stands for 0.
pub(crate) fn resolve_index(space: &Space<'_>, index: &Index<'_>, noted: &mut Noted<NameWhy>) -> u32
    ensures value { (ds : List (Option (List ℕ))) → IsSpace ds space.now → result ≡ named_index ds index.now }
    ensures noted { (ds : List (Option (List ℕ))) → IsSpace ds space.now
        → noted.new.first ≡ least_from noted.old.first (unknown_index ds index.now) }
{
    match index {
        Index::Number { value, .. } => *value,
        Index::Named(id) => place_of_id(space, id, noted),
    }
}

/// The same where the index may be left out.
pub(crate) fn resolve_optional(
    space: &Space<'_>,
    index: Option<&Index<'_>>,
    noted: &mut Noted<NameWhy>,
) -> u32
    ensures value { (ds : List (Option (List ℕ))) → IsSpace ds space.now
        → result ≡ index_or_zero ds (option_copied index.entry) }
    ensures noted { (ds : List (Option (List ℕ))) → IsSpace ds space.now
        → noted.new.first ≡ least_from noted.old.first (unknown_in ds (option_copied index.entry)) }
{
    match index {
        None => 0,
        Some(index) => resolve_index(space, index, noted),
    }
}

/// The indices of a list, in order. The error is want of memory.
pub(crate) fn resolve_indices(
    alloc: Global,
    space: &Space<'_>,
    indices: &[Index<'_>],
    noted: &mut Noted<NameWhy>,
) -> Result<AstList<u32>, AllocError>
    ensures value { (ds : List (Option (List ℕ))) → IsSpace ds space.now
        → IfOk result (λ found. found ≡ indices_of ds indices.now) }
    ensures noted { (ds : List (Option (List ℕ))) → IsSpace ds space.now
        → OnOk result (noted.new.first ≡ least_from noted.old.first (unknown_of ds indices.now)) }
{
    let mut found = Vec::with_capacity(alloc, indices.len())?;
    for index in indices {
        found.push(resolve_index(space, index, noted))?;
    }
    Ok(AstList::from_vec(found))
}
