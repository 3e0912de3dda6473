//! What is wrong with type uses.

ghost use Rattle.std.specs.Prelude.{◌≡◌, ◌++◌, ℕ, List, Option, map};
ghost use Rattle.std.specs.List.{flat_map};
ghost use Rattle.std.specs.Option.{option_to_list};
ghost use Rattle.wc_spaces.specs.Standard.Least.{least_from};
ghost use Rattle.wc_spaces.specs.Standard.Spaces.{place_of};
ghost use Rattle.wc_spaces.specs.Kept.Spaces.{IsSpace};
ghost use Rattle.wc_spaces.specs.Kept.Types.{AreTypes};
ghost use Rattle.wc_spaces.specs.Kept.Places.{text_of};
ghost use Rattle.wc_surface.specs.Standard.Keys.{key_of};
ghost use Rattle.wc_declare.specs.Standard.Types.{uses_of, all_uses};
ghost use Rattle.wc_declare.specs.Standard.Uses.{type_faults, place_faults, index_faults, param_fault, param_faults};
ghost use Rattle.wc_declare.specs.Standard.Uses.{use_faults, named_index, use_index};

use crate::parts::{own_use, uses_inside};
use wc_resolve_code::NameWhy;
use wc_spaces::{Noted, Space, Types};
use wc_surface::{Field, Id, Index, ParamName, TypeUse, UseRef, User};

/// Judges what is written behind the index of this type.
fn judge_type(token: u32, found: Option<&[u8]>, written: &[u8], noted: &mut Noted<NameWhy>)
    ensures { noted.new.first ≡ least_from noted.old.first (type_faults token (text_of found.entry) written.now) }
{
    match found {
        None => noted.note(token, NameWhy::NoSuchType),
        Some(key) => {
            if !written.is_empty() && key != written {
                noted.note(token, NameWhy::TypeDiffers);
            }
        }
    }
}

fn place_of_id(ids: &Space<'_>, id: &Id<'_>) -> Option<u32>
    ensures { (ds : List (Option (List ℕ))) → IsSpace ds ids.now → result ≡ place_of id.now.text ds }
{
    ids.place(id.text().as_bytes())
}

/// Judges an identifier that has this place, or none.
fn judge_place(
    types: &Types<'_>,
    token: u32,
    place: Option<u32>,
    written: &[u8],
    noted: &mut Noted<NameWhy>,
)
    ensures { (ts : List (List ℕ)) → AreTypes ts types.now
        → noted.new.first ≡ least_from noted.old.first (place_faults ts token place written.now) }
{
    match place {
        None => noted.note(token, NameWhy::UnknownId),
        Some(place) => judge_type(token, types.at(place), written, noted),
    }
}

/// Judges the index of a use.
fn judge_index(types: &Types<'_>, ids: &Space<'_>, used: &UseRef<'_>, noted: &mut Noted<NameWhy>)
    ensures { (ds : List (Option (List ℕ))) (ts : List (List ℕ)) → IsSpace ds ids.now → AreTypes ts types.now
        → noted.new.first ≡ least_from noted.old.first
        (index_faults ds ts used.now.index (key_of used.now.signature)) }
{
    match used.index() {
        None => {}
        Some(Index::Number { token, value }) => {
            judge_type(*token, types.at(*value), used.key(), noted);
        }
        Some(Index::Named(id)) => {
            let place = place_of_id(ids, id);
            judge_place(types, id.token(), place, used.key(), noted);
        }
    }
}

fn judge_param(user: User, token: u32, noted: &mut Noted<NameWhy>)
    ensures { noted.new.first ≡ least_from noted.old.first (param_fault user token) }
{
    match user {
        User::Func => {}
        User::CallIndirect => noted.note(token, NameWhy::NamedParam),
        User::Block => noted.note(token, NameWhy::BlockParam),
    }
}

/// Judges the identifiers of parameters.
fn judge_params(user: User, names: &[ParamName<'_>], noted: &mut Noted<NameWhy>)
    ensures { noted.new.first ≡ least_from noted.old.first (param_faults user names.now) }
{
    for name in names {
        judge_param(user, name.id.token(), noted);
    }
}

fn judge_use(types: &Types<'_>, ids: &Space<'_>, used: &UseRef<'_>, noted: &mut Noted<NameWhy>)
    ensures { (ds : List (Option (List ℕ))) (ts : List (List ℕ)) → IsSpace ds ids.now → AreTypes ts types.now
        → noted.new.first ≡ least_from noted.old.first (use_faults ds ts used.now) }
{
    judge_index(types, ids, used, noted);
    judge_params(used.user(), used.names(), noted);
}

fn judge_uses<'a>(
    types: &Types<'_>,
    ids: &Space<'_>,
    uses: &'a [TypeUse<'a>],
    noted: &mut Noted<NameWhy>,
)
    ensures { (ds : List (Option (List ℕ))) (ts : List (List ℕ)) → IsSpace ds ids.now → AreTypes ts types.now
        → noted.new.first ≡ least_from noted.old.first (flat_map (use_faults ds ts) uses.now) }
{
    for used in uses {
        judge_use(types, ids, &UseRef::of(used), noted);
    }
}

#[inline(always)]
fn judge_own(
    types: &Types<'_>,
    ids: &Space<'_>,
    own: Option<UseRef<'_>>,
    noted: &mut Noted<NameWhy>,
)
    ensures { (ds : List (Option (List ℕ))) (ts : List (List ℕ)) → IsSpace ds ids.now → AreTypes ts types.now
        → noted.new.first ≡ least_from noted.old.first (flat_map (use_faults ds ts) (option_to_list own.entry)) }
{
    match own {
        None => {}
        Some(used) => judge_use(types, ids, &used, noted),
    }
}

fn judge_field<'a>(
    types: &Types<'a>,
    ids: &Space<'a>,
    field: &'a Field<'_>,
    noted: &mut Noted<NameWhy>,
)
    ensures { (ds : List (Option (List ℕ))) (ts : List (List ℕ)) → IsSpace ds ids.now → AreTypes ts types.now
        → noted.new.first ≡ least_from noted.old.first (flat_map (use_faults ds ts) (uses_of field.now)) }
{
    judge_own(types, ids, own_use(field), noted);
    judge_uses(types, ids, uses_inside(field), noted);
}

/// Notes what is wrong with the type uses of all fields.
pub(crate) fn judge_fields<'a>(
    types: &Types<'a>,
    ids: &Space<'a>,
    fields: &'a [Field<'_>],
    noted: &mut Noted<NameWhy>,
)
    ensures { (ds : List (Option (List ℕ))) (ts : List (List ℕ)) → IsSpace ds ids.now → AreTypes ts types.now
        → noted.new.first ≡ least_from noted.old.first (flat_map (use_faults ds ts) (all_uses fields.now)) }
{
    for field in fields {
        judge_field(types, ids, field, noted);
    }
}

fn index_named(ids: &Space<'_>, index: &Index<'_>) -> u32
    ensures { (ds : List (Option (List ℕ))) → IsSpace ds ids.now → result ≡ named_index ds index.now }
{
    match index {
        Index::Number { value, .. } => *value,
        Index::Named(id) => place_of_id(ids, id).unwrap_or(0),
    }
}

/// The index of the type that a use is of.
pub(crate) fn index_of(types: &Types<'_>, ids: &Space<'_>, used: &UseRef<'_>) -> u32
    ensures { (ds : List (Option (List ℕ))) (ts : List (List ℕ)) → IsSpace ds ids.now → AreTypes ts types.now
        → result ≡ use_index ds ts used.now }
{
    match used.index() {
        None => types.find(used.key()).unwrap_or(0),
        Some(index) => index_named(ids, index),
    }
}
