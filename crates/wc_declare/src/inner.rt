//! Identifiers inside functions, and how many locals they declare.

ghost use Rattle.std.specs.Prelude.{◌≡◌, ◌++◌, ◌∷◌, [], ℕ, List, Option, Some, OnOk, if◌then◌else◌};
ghost use Rattle.wc_spaces.specs.Standard.Least.{least_from};
ghost use Rattle.wc_surface.specs.Standard.WrittenLocals.{locals_of as group_locals, written_out, AreNumbered};
ghost use Rattle.wc_resolve_code.specs.declared.why.NameWhy.TheVariants.{DuplicateId};
ghost use Rattle.wc_declare.specs.Standard.Spaces.{texts, repeated_after};
ghost use Rattle.wc_declare.specs.Standard.Order.{fault};
ghost use Rattle.wc_declare.specs.Standard.Inner.{param_ids, local_ids, token_beyond, too_many, inner_faults};
ghost use Rattle.wc_declare.specs.Kept.Seen.{HaveNames, copies};

use crate::parts::{groups_of, params_of};
use std::alloc::{AllocError, Global};
use wc_ast::LOCALS_LIMIT;
use wc_resolve_code::NameWhy;
use wc_spaces::{Noted, Places};
use wc_surface::{Field, Id, LocalGroup, ParamName};

/// Notes an identifier that isn't new.
fn note_unless(is_new: bool, token: u32, noted: &mut Noted<NameWhy>)
    ensures { noted.new.first ≡ least_from noted.old.first (if is_new then [] else fault token DuplicateId) }
{
    if !is_new {
        noted.note(token, NameWhy::DuplicateId);
    }
}

/// One more identifier. Where one before it is equal, that is noted.
fn note_id<'a>(
    seen: &mut Places<'a>,
    id: &'a Id<'a>,
    noted: &mut Noted<NameWhy>,
) -> Result<(), AllocError>
    ensures names { (ds : List (Option (List ℕ))) → HaveNames ds seen.old
        → OnOk result (HaveNames (ds ++ texts (Some id.now ∷ [])) seen.new) }
    ensures noted { (ds : List (Option (List ℕ))) → HaveNames ds seen.old
        → OnOk result (noted.new.first ≡ least_from noted.old.first (repeated_after ds (Some id.now ∷ []))) }
{
    let is_new = seen.add(id.text().as_bytes(), 0)?;
    note_unless(is_new, id.token(), noted);
    Ok(())
}

/// The identifiers of parameters, one after another.
fn note_params<'a>(
    seen: &mut Places<'a>,
    names: &'a [ParamName<'a>],
    noted: &mut Noted<NameWhy>,
) -> Result<(), AllocError>
    ensures names { (ds : List (Option (List ℕ))) → HaveNames ds seen.old
        → OnOk result (HaveNames (ds ++ texts (param_ids names.now)) seen.new) }
    ensures noted { (ds : List (Option (List ℕ))) → HaveNames ds seen.old
        → OnOk result (noted.new.first ≡ least_from noted.old.first (repeated_after ds (param_ids names.now))) }
{
    for name in names {
        note_id(seen, &name.id, noted)?;
    }
    Ok(())
}

/// The same identifier so many times.
fn note_copies<'a>(
    seen: &mut Places<'a>,
    id: &'a Id<'a>,
    count: u32,
    noted: &mut Noted<NameWhy>,
) -> Result<(), AllocError>
    ensures names { (ds : List (Option (List ℕ))) → HaveNames ds seen.old
        → OnOk result (HaveNames (ds ++ texts (copies count id.now)) seen.new) }
    ensures noted { (ds : List (Option (List ℕ))) → HaveNames ds seen.old
        → OnOk result (noted.new.first ≡ least_from noted.old.first (repeated_after ds (copies count id.now))) }
{
    for _done in 0..count {
        note_id(seen, id, noted)?;
    }
    Ok(())
}

/// The identifiers of a group of locals.
fn note_group<'a>(
    seen: &mut Places<'a>,
    group: &'a LocalGroup<'a>,
    noted: &mut Noted<NameWhy>,
) -> Result<(), AllocError>
    ensures names { (ds : List (Option (List ℕ))) → HaveNames ds seen.old
        → OnOk result (HaveNames (ds ++ texts (local_ids (group_locals group.now))) seen.new) }
    ensures noted { (ds : List (Option (List ℕ))) → HaveNames ds seen.old
        → OnOk result (noted.new.first
        ≡ least_from noted.old.first (repeated_after ds (local_ids (group_locals group.now)))) }
{
    match &group.id {
        None => Ok(()),
        Some(id) => note_copies(seen, id, group.count, noted),
    }
}

/// The identifiers of declared locals, one after another.
fn note_locals<'a>(
    seen: &mut Places<'a>,
    groups: &'a [LocalGroup<'a>],
    noted: &mut Noted<NameWhy>,
) -> Result<(), AllocError>
    ensures names { (ds : List (Option (List ℕ))) → HaveNames ds seen.old
        → OnOk result (HaveNames (ds ++ texts (local_ids (written_out groups.now))) seen.new) }
    ensures noted { (ds : List (Option (List ℕ))) → HaveNames ds seen.old
        → OnOk result (noted.new.first
        ≡ least_from noted.old.first (repeated_after ds (local_ids (written_out groups.now)))) }
{
    for group in groups {
        note_group(seen, group, noted)?;
    }
    Ok(())
}

/// The token of the type of the first local beyond the limit.
fn first_beyond(groups: &[LocalGroup<'_>]) -> Option<u32>
    requires { AreNumbered groups.now }
    ensures { result ≡ token_beyond (written_out groups.now) }
{
    let mut room = LOCALS_LIMIT;
    for group in groups {
        if group.count > room {
            return Some(group.token + room);
        }
        room -= group.count;
    }
    None
}

/// Notes the first local beyond the limit.
fn note_beyond(groups: &[LocalGroup<'_>], noted: &mut Noted<NameWhy>)
    requires { AreNumbered groups.now }
    ensures { noted.new.first ≡ least_from noted.old.first (too_many (token_beyond (written_out groups.now))) }
{
    match first_beyond(groups) {
        None => {}
        Some(token) => noted.note(token, NameWhy::TooManyLocals),
    }
}

/// Notes what is wrong inside a field.
pub(crate) fn note_field<'a>(
    alloc: Global,
    field: &'a Field<'_>,
    noted: &mut Noted<NameWhy>,
) -> Result<(), AllocError>
    ensures { OnOk result (noted.new.first ≡ least_from noted.old.first (inner_faults field.now)) }
{
    let mut seen = Places::new(alloc);
    note_params(&mut seen, params_of(field), noted)?;
    let groups = groups_of(field);
    note_locals(&mut seen, groups, noted)?;
    note_beyond(groups, noted);
    Ok(())
}
