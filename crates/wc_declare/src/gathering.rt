//! What fields declare, in one walk over them: all but the types that are written only where they are used.

ghost use Rattle.std.specs.Prelude.{◌≡◌, ◌<◌, ◌≤◌, ◌-◌, ◌^◌, List, IfOk, OnOk, length, map};
ghost use Rattle.wc_spaces.specs.Kept.Types.{AreTypes, count_of};
ghost use Rattle.wc_spaces.specs.Standard.Least.{least, least_from};
ghost use Rattle.wc_spaces.specs.declared.noted.Fault.{Fault as FaultValue};
ghost use Rattle.wc_surface.specs.Standard.Keys.{key_of};
ghost use Rattle.wc_surface.specs.declared.field.Field.{Field as FieldValue};
ghost use Rattle.wc_resolve_code.specs.declared.why.NameWhy.{NameWhy as Why};
ghost use Rattle.wc_declare.specs.Standard.Stages.{declaration_faults};
ghost use Rattle.wc_declare.specs.Standard.Types.{written_types};
ghost use Rattle.wc_declare.specs.Kept.Declaring.{AreSpaces};
ghost use Rattle.wc_declare.specs.Kept.Gathered.{NoSpaces, NoNotes, AtMost, Declares, Grows, AreTold};

use crate::declared::Spaces;
use crate::inner::note_field;
use crate::kind::SpaceKind;
use crate::listing::add_written;
use crate::order::{Order, note_order};
use crate::room::room_for;
use crate::spaces::{add_found, declared};
use std::alloc::{AllocError, Global};
use wc_resolve_code::NameWhy;
use wc_spaces::{Noted, Space, Types};
use wc_surface::Field;

/// What fields declare, as far as they were gone through: the index spaces, and the types that fields define.
#[derive(Drop)]
pub struct Gathered<'a> {
    pub spaces: Spaces<'a>,
    pub types: Types<'a>,
}

/// What has an identifier that one before it has, of each index space on its own.
#[derive(Clone, Copy)]
pub struct Repeats {
    pub types: Noted<NameWhy>,
    pub funcs: Noted<NameWhy>,
    pub tables: Noted<NameWhy>,
    pub memories: Noted<NameWhy>,
    pub globals: Noted<NameWhy>,
}

/// What is wrong with declarations, of each part on its own: of two faults at one token that of the part that is told
/// first is the first.
#[derive(Clone, Copy)]
pub struct Notes {
    pub repeats: Repeats,
    pub order: Order,
    pub inner: Noted<NameWhy>,
}

/// Adds what a field declares to each index space. What has the identifier of one before it is noted.
fn put_spaces<'a>(
    spaces: &mut Spaces<'a>,
    field: &'a Field<'_>,
    noted: &mut Repeats,
) -> Result<(), AllocError>
    requires { AtMost (2 ^ 32 - 2) spaces.old }
    ensures { OnOk result (Declares field.now spaces.old spaces.new noted.old noted.new) }
{
    let ty = declared(SpaceKind::Type, field);
    let func = declared(SpaceKind::Func, field);
    let table = declared(SpaceKind::Table, field);
    let memory = declared(SpaceKind::Memory, field);
    let global = declared(SpaceKind::Global, field);
    add_found(&mut spaces.types, ty, &mut noted.types)?;
    add_found(&mut spaces.funcs, func, &mut noted.funcs)?;
    add_found(&mut spaces.tables, table, &mut noted.tables)?;
    add_found(&mut spaces.memories, memory, &mut noted.memories)?;
    add_found(&mut spaces.globals, global, &mut noted.globals)?;
    Ok(())
}

/// Adds what a field declares. What is wrong with it is noted.
fn put_field<'a>(
    alloc: Global,
    gathered: &mut Gathered<'a>,
    field: &'a Field<'_>,
    notes: &mut Notes,
) -> Result<(), AllocError>
    requires spaces { AtMost (2 ^ 32 - 2) gathered.old.spaces }
    requires types { count_of gathered.old.types < 2 ^ 32 }
    ensures { OnOk result (Grows field.now gathered.old gathered.new notes.old notes.new) }
{
    put_spaces(&mut gathered.spaces, field, &mut notes.repeats)?;
    add_written(&mut gathered.types, field)?;
    note_order(&mut notes.order, field);
    note_field(alloc, field, &mut notes.inner)?;
    Ok(())
}

fn no_spaces<'a>(alloc: Global, fields: &'a [Field<'_>]) -> Result<Spaces<'a>, AllocError>
    ensures spaces { IfOk result NoSpaces }
    ensures few { IfOk result (AtMost 0) }
{
    let room = room_for(fields);
    Ok(Spaces {
        types: Space::with_room(alloc, room.types)?,
        funcs: Space::with_room(alloc, room.funcs)?,
        tables: Space::with_room(alloc, room.tables)?,
        memories: Space::with_room(alloc, room.memories)?,
        globals: Space::with_room(alloc, room.globals)?,
    })
}

fn no_notes() -> Notes
    ensures { NoNotes result }
{
    Notes {
        repeats: Repeats {
            types: Noted::nothing(),
            funcs: Noted::nothing(),
            tables: Noted::nothing(),
            memories: Noted::nothing(),
            globals: Noted::nothing(),
        },
        order: Order {
            defined: false,
            started: false,
            late: Noted::nothing(),
            second: Noted::nothing(),
        },
        inner: Noted::nothing(),
    }
}

/// What was noted, and then what was noted on its own.
fn join(noted: &mut Noted<NameWhy>, more: Noted<NameWhy>)
    ensures { (fs : List (FaultValue Why)) → more.first ≡ least fs
        → noted.new.first ≡ least_from noted.old.first fs }
{
    match more.first {
        None => {}
        Some(fault) => noted.note(fault.token, fault.why),
    }
}

/// What was noted, and then what is wrong with declarations.
fn join_all(noted: &mut Noted<NameWhy>, notes: Notes)
    ensures { (all : List FieldValue) → AreTold all notes
        → noted.new.first ≡ least_from noted.old.first (declaration_faults all) }
{
    join(noted, notes.repeats.types);
    join(noted, notes.repeats.funcs);
    join(noted, notes.repeats.tables);
    join(noted, notes.repeats.memories);
    join(noted, notes.repeats.globals);
    join(noted, notes.order.late);
    join(noted, notes.order.second);
    join(noted, notes.inner);
}

/// The index spaces, and the types that fields define. What is wrong with declarations is noted. The error is want of
/// memory.
pub(crate) fn gather<'a>(
    alloc: Global,
    fields: &'a [Field<'_>],
    noted: &mut Noted<NameWhy>,
) -> Result<Gathered<'a>, AllocError>
    requires { length fields.now < 2 ^ 32 }
    ensures spaces { IfOk result (λ gathered. AreSpaces fields.now gathered.spaces) }
    ensures types { IfOk result (λ gathered. AreTypes (map key_of (written_types fields.now)) gathered.types) }
    ensures count { IfOk result (λ gathered. count_of gathered.types ≤ length fields.now) }
    ensures noted { OnOk result (noted.new.first ≡ least_from noted.old.first (declaration_faults fields.now)) }
{
    let mut gathered = Gathered {
        spaces: no_spaces(alloc, fields)?,
        types: Types::new(alloc),
    };
    let mut notes = no_notes();
    for field in fields {
        put_field(alloc, &mut gathered, field, &mut notes)?;
    }
    join_all(noted, notes);
    Ok(gathered)
}
