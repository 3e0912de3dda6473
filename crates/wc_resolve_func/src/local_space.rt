//! The local index space of a function.

ghost use Rattle.std.specs.Prelude.{◌≡◌, ◌<◌, ◌+◌, ◌++◌, ◌∷◌, [], ◌^◌, ℕ, List, Option};
ghost use Rattle.std.specs.Prelude.{Some, IfOk, OnOk, length, drop, ◌≤◌};
ghost use Rattle.wc_spaces.specs.Kept.Spaces.{IsSpace, size_of};
ghost use Rattle.wc_surface.specs.Standard.WrittenLocals.{locals_of, written_out};
ghost use Rattle.wc_declare.specs.Standard.Spaces.{texts, text_in};
ghost use Rattle.wc_declare.specs.Standard.Inner.{local_ids};
ghost use Rattle.wc_declare.specs.Kept.Seen.{copies};
ghost use Rattle.wc_resolve_func.specs.Standard.Locals.{id_at, behind, params_from};

use std::alloc::{AllocError, Global};
use wc_resolve_code::NameWhy;
use wc_spaces::{Noted, Space};
use wc_surface::{Id, LocalGroup, ParamName};

/// One more with this identifier. Where one before it is equal, that was told with the declarations.
fn add_id<'a>(space: &mut Space<'a>, id: &'a Id<'a>) -> Result<(), AllocError>
    requires { size_of space.old + 1 < 2 ^ 32 }
    ensures space { (ds : List (Option (List ℕ))) → IsSpace ds space.old
        → OnOk result (IsSpace (ds ++ text_in (Some id.now) ∷ []) space.new) }
    ensures size { OnOk result (size_of space.new ≡ size_of space.old + 1) }
{
    let mut told = Noted::nothing();
    space.add_named(
        id.token(),
        id.text().as_bytes(),
        NameWhy::DuplicateId,
        &mut told,
    )
}

/// The parameter of this place, where so many identifiers are used up. The answer is how many are then.
fn add_param<'a>(
    space: &mut Space<'a>,
    place: u32,
    names: &'a [ParamName<'a>],
    used: usize,
) -> Result<usize, AllocError>
    requires room { size_of space.old + 1 < 2 ^ 32 }
    requires used { used ≤ place }
    ensures space { (ds : List (Option (List ℕ))) → IsSpace ds space.old
        → OnOk result (IsSpace (ds ++ text_in (id_at place (drop used names.now)) ∷ []) space.new) }
    ensures left { IfOk result (λ after. drop after names.now ≡ behind place (drop used names.now)) }
    ensures used { IfOk result (λ after. after ≤ used + 1) }
    ensures size { OnOk result (size_of space.new ≡ size_of space.old + 1) }
{
    match names.get(used) {
        Some(name) if name.place == place => {
            add_id(space, &name.id)?;
            Ok(used + 1)
        }
        _ => {
            space.add_unnamed();
            Ok(used)
        }
    }
}

/// So many parameters, one by one.
fn add_each_param<'a>(
    space: &mut Space<'a>,
    count: u32,
    names: &'a [ParamName<'a>],
) -> Result<(), AllocError>
    requires { size_of space.old + count < 2 ^ 32 }
    ensures space { (ds : List (Option (List ℕ))) → IsSpace ds space.old
        → OnOk result (IsSpace (ds ++ texts (params_from 0 count names.now)) space.new) }
    ensures size { OnOk result (size_of space.new ≡ size_of space.old + count) }
{
    let mut next = 0;
    for place in 0..count {
        next = add_param(space, place, names, next)?;
    }
    Ok(())
}

/// So many parameters. Where none has an identifier, it takes no longer for many than for one.
fn add_params<'a>(
    space: &mut Space<'a>,
    count: u32,
    names: &'a [ParamName<'a>],
) -> Result<(), AllocError>
    requires { size_of space.old + count < 2 ^ 32 }
    ensures space { (ds : List (Option (List ℕ))) → IsSpace ds space.old
        → OnOk result (IsSpace (ds ++ texts (params_from 0 count names.now)) space.new) }
    ensures size { OnOk result (size_of space.new ≡ size_of space.old + count) }
{
    if names.is_empty() {
        space.add_unnamed_many(count);
        Ok(())
    } else {
        add_each_param(space, count, names)
    }
}

/// The same identifier so many times.
fn add_copies<'a>(space: &mut Space<'a>, id: &'a Id<'a>, count: u32) -> Result<(), AllocError>
    requires { size_of space.old + count < 2 ^ 32 }
    ensures space { (ds : List (Option (List ℕ))) → IsSpace ds space.old
        → OnOk result (IsSpace (ds ++ texts (copies count id.now)) space.new) }
    ensures size { OnOk result (size_of space.new ≡ size_of space.old + count) }
{
    for _done in 0..count {
        add_id(space, id)?;
    }
    Ok(())
}

/// The locals of a group.
fn add_group<'a>(space: &mut Space<'a>, group: &'a LocalGroup<'a>) -> Result<(), AllocError>
    requires { size_of space.old + group.now.count < 2 ^ 32 }
    ensures space { (ds : List (Option (List ℕ))) → IsSpace ds space.old
        → OnOk result (IsSpace (ds ++ texts (local_ids (locals_of group.now))) space.new) }
    ensures size { OnOk result (size_of space.new ≡ size_of space.old + group.now.count) }
{
    match &group.id {
        None => {
            space.add_unnamed_many(group.count);
            Ok(())
        }
        Some(id) => add_copies(space, id, group.count),
    }
}

/// Declared locals, one group after another.
fn add_locals<'a>(space: &mut Space<'a>, groups: &'a [LocalGroup<'a>]) -> Result<(), AllocError>
    requires { size_of space.old + length (written_out groups.now) < 2 ^ 32 }
    ensures { (ds : List (Option (List ℕ))) → IsSpace ds space.old
        → OnOk result (IsSpace (ds ++ texts (local_ids (written_out groups.now))) space.new) }
{
    for group in groups {
        add_group(space, group)?;
    }
    Ok(())
}

/// So many parameters with these identifiers, and behind them the declared locals. The error is want of memory.
pub(crate) fn local_space<'a>(
    alloc: Global,
    count: u32,
    names: &'a [ParamName<'a>],
    groups: &'a [LocalGroup<'a>],
) -> Result<Space<'a>, AllocError>
    requires { count + length (written_out groups.now) < 2 ^ 32 }
    ensures { IfOk result (λ space.
        IsSpace (texts (params_from 0 count names.now ++ local_ids (written_out groups.now))) space) }
{
    let mut space = Space::new(alloc);
    add_params(&mut space, count, names)?;
    add_locals(&mut space, groups)?;
    Ok(space)
}
