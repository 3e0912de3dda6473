//! Index spaces.

ghost use Rattle.std.specs.Prelude.{◌≡◌, ◌<◌, ◌≤◌, ◌+◌, ◌++◌, ◌∷◌, [], ◌^◌, ℕ, List, Option, OnOk};
ghost use Rattle.std.specs.Prelude.{option_copied};
ghost use Rattle.wc_spaces.specs.Standard.Least.{least_from};
ghost use Rattle.wc_spaces.specs.Kept.Spaces.{IsSpace, size_of};
ghost use Rattle.wc_declare.specs.Standard.Spaces.{brings, declares, texts, repeated_after, text_in};
ghost use Rattle.wc_declare.specs.Kept.Found.{found};

use crate::kind::SpaceKind;
use std::alloc::AllocError;
use wc_resolve_code::NameWhy;
use wc_spaces::{Noted, Space};
use wc_surface::{Field, Id, ImportDesc};

/// What an import declares in the index space: nothing, or one thing with this identifier.
fn brought<'b, 'a>(
    kind: SpaceKind,
    desc: &ImportDesc<'_>,
    id: &'b Option<Id<'a>>,
) -> Option<Option<&'b Id<'a>>>
    ensures { found result ≡ brings kind desc.now id.now }
{
    match (kind, desc) {
        (SpaceKind::Func, ImportDesc::Func(_)) => Some(id.as_ref()),
        (SpaceKind::Table, ImportDesc::Table(_)) => Some(id.as_ref()),
        (SpaceKind::Memory, ImportDesc::Memory(_)) => Some(id.as_ref()),
        (SpaceKind::Global, ImportDesc::Global(_)) => Some(id.as_ref()),
        _ => None,
    }
}

/// What a field declares in the index space: nothing, or one thing with an identifier or none.
#[inline(always)]
pub(crate) fn declared<'b, 'a>(kind: SpaceKind, field: &'b Field<'a>) -> Option<Option<&'b Id<'a>>>
    ensures { found result ≡ declares kind field.now }
{
    match (kind, field) {
        (SpaceKind::Type, Field::FuncType(ty)) => Some(ty.id.as_ref()),
        (_, Field::Import(import)) => {
            let import = import.get();
            brought(kind, &import.desc, &import.id)
        }
        (SpaceKind::Func, Field::Func(func)) => Some(func.id()),
        (SpaceKind::Table, Field::Table(table)) => Some(table.id.as_ref()),
        (SpaceKind::Memory, Field::Memory(memory)) => Some(memory.id.as_ref()),
        (SpaceKind::Global, Field::Global(global)) => Some(global.id.get()),
        _ => None,
    }
}

/// Adds one declaration, with this identifier or with none.
fn add_one<'a>(
    space: &mut Space<'a>,
    id: Option<&'a Id<'a>>,
    noted: &mut Noted<NameWhy>,
) -> Result<(), AllocError>
    requires { size_of space.old + 1 < 2 ^ 32 }
    ensures space { (ds : List (Option (List ℕ))) → IsSpace ds space.old
        → OnOk result (IsSpace (ds ++ text_in (option_copied id.entry) ∷ []) space.new) }
    ensures noted { (ds : List (Option (List ℕ))) → IsSpace ds space.old
        → OnOk result (noted.new.first ≡ least_from noted.old.first (repeated_after ds (option_copied id.entry ∷ []))) }
    ensures size { OnOk result (size_of space.new ≡ size_of space.old + 1) }
{
    match id {
        None => {
            space.add_unnamed();
            Ok(())
        }
        Some(id) => space.add_named(
            id.token(),
            id.text().as_bytes(),
            NameWhy::DuplicateId,
            noted,
        ),
    }
}

/// Adds what a field declares.
pub(crate) fn add_found<'a>(
    space: &mut Space<'a>,
    declared: Option<Option<&'a Id<'a>>>,
    noted: &mut Noted<NameWhy>,
) -> Result<(), AllocError>
    requires { size_of space.old + 1 < 2 ^ 32 }
    ensures space { (ds : List (Option (List ℕ))) → IsSpace ds space.old
        → OnOk result (IsSpace (ds ++ texts (found declared.entry)) space.new) }
    ensures noted { (ds : List (Option (List ℕ))) → IsSpace ds space.old
        → OnOk result (noted.new.first ≡ least_from noted.old.first (repeated_after ds (found declared.entry))) }
    ensures size { OnOk result (size_of space.new ≤ size_of space.old + 1) }
{
    match declared {
        None => Ok(()),
        Some(id) => add_one(space, id, noted),
    }
}
