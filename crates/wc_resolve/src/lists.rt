//! The lists of a module but its types and functions, in one walk over the fields.

ghost use Rattle.std.specs.Prelude.{◌≡◌, ◌<◌, ◌^◌, All, List, IfOk, OnOk, length};
ghost use Rattle.wc_spaces.specs.Standard.Least.{least, least_from};
ghost use Rattle.wc_spaces.specs.declared.noted.Fault.{Fault as FaultValue};
ghost use Rattle.wc_surface.specs.declared.field.Field.{Field as FieldValue};
ghost use Rattle.wc_resolve_code.specs.declared.why.NameWhy.{NameWhy as Why};
ghost use Rattle.wc_declare.specs.Kept.Declaring.{IsDeclared};
ghost use Rattle.wc_surface.specs.Standard.Sizes.{inline_size};
ghost use Rattle.wc_resolve.specs.Kept.Listed.{NoLists, NoNotes, Grows, Tells, AreLists, AreTold, told_after};

use crate::counts::{Counts, count_field, nothing};
use crate::{datas, elems, exports, globals, imports, ranges, start};
use std::alloc::{self, AllocError};
use wc_ast::{Data, Elem, Exports, Global, Imports, Limits, List as AstList};
use wc_declare::Declared;
use wc_resolve_code::NameWhy;
use wc_spaces::Noted;
use wc_surface::Field;

/// Lists of a module, as far as the fields were gone through.
#[derive(Drop)]
pub struct Lists {
    pub imports: Imports,
    pub tables: AstList<Limits>,
    pub memories: AstList<Limits>,
    pub globals: AstList<Global>,
    pub exports: Exports,
    pub start: Option<u32>,
    pub elems: AstList<Elem>,
    pub datas: AstList<Data>,
}

/// What is wrong with the names of each list on its own: of two faults at one token that of the list that is told first
/// is the first.
#[derive(Clone, Copy)]
pub struct Notes {
    pub globals: Noted<NameWhy>,
    pub exports: Noted<NameWhy>,
    pub start: Noted<NameWhy>,
    pub elems: Noted<NameWhy>,
    pub datas: Noted<NameWhy>,
}

/// Adds what a field gives to each list. What is wrong with its names is noted.
fn put_field<'a>(
    alloc: alloc::Global,
    lists: &mut Lists,
    declared: &Declared<'a>,
    counts: Counts,
    field: &'a Field<'_>,
    notes: &mut Notes,
) -> Result<(), AllocError>
    requires { inline_size field.now < 2 ^ 32 }
    ensures lists { (all : List FieldValue) → IsDeclared all declared.now
        → OnOk result (Grows all counts field.now lists.old lists.new) }
    ensures notes { (all : List FieldValue) → IsDeclared all declared.now
        → OnOk result (Tells all field.now notes.old notes.new) }
{
    let spaces = &declared.spaces;
    imports::put_field(&mut lists.imports, declared, field)?;
    ranges::put_table(&mut lists.tables, field)?;
    ranges::put_memory(&mut lists.memories, field)?;
    globals::put_field(
        alloc,
        &mut lists.globals,
        declared,
        field,
        &mut notes.globals,
    )?;
    exports::put_field(
        &mut lists.exports,
        spaces,
        counts,
        field,
        &mut notes.exports,
    )?;
    lists.start = start::start_behind(lists.start, spaces, field, &mut notes.start);
    elems::put_field(
        alloc,
        &mut lists.elems,
        declared,
        counts,
        field,
        &mut notes.elems,
    )?;
    datas::put_field(
        alloc,
        &mut lists.datas,
        declared,
        counts,
        field,
        &mut notes.datas,
    )
}

fn no_lists(alloc: alloc::Global) -> Lists
    ensures { NoLists result }
{
    Lists {
        imports: Imports::new(alloc),
        tables: AstList::new(alloc),
        memories: AstList::new(alloc),
        globals: AstList::new(alloc),
        exports: Exports::new(alloc),
        start: None,
        elems: AstList::new(alloc),
        datas: AstList::new(alloc),
    }
}

fn no_notes() -> Notes
    ensures { NoNotes result }
{
    Notes {
        globals: Noted::nothing(),
        exports: Noted::nothing(),
        start: Noted::nothing(),
        elems: Noted::nothing(),
        datas: Noted::nothing(),
    }
}

/// What was noted, and then what was noted on its own.
fn join(noted: &mut Noted<NameWhy>, more: Noted<NameWhy>)
    ensures { (fs : List (FaultValue Why)) → more.first ≡ least fs
        → noted.new.first ≡ least_from noted.old.first fs }
{
    match more.first {
        None => {}
        Some(fault) => noted.note(fault.token, fault.why),
    }
}

/// What was noted, and then what is wrong with the names of each list.
fn join_all(noted: &mut Noted<NameWhy>, notes: Notes)
    ensures { (all : List FieldValue) → AreTold all notes → noted.new.first ≡ told_after all noted.old.first }
{
    join(noted, notes.globals);
    join(noted, notes.exports);
    join(noted, notes.start);
    join(noted, notes.elems);
    join(noted, notes.datas);
}

/// The lists, in the order of the text. What is wrong with their names is noted. The error is want of memory.
pub(crate) fn gather<'a>(
    alloc: alloc::Global,
    declared: &Declared<'a>,
    fields: &'a [Field<'_>],
    noted: &mut Noted<NameWhy>,
) -> Result<Lists, AllocError>
    requires few { length fields.now < 2 ^ 32 }
    requires inline { All (λ f. inline_size f < 2 ^ 32) fields.now }
    requires declared { IsDeclared fields.now declared.now }
    ensures lists { IfOk result (AreLists fields.now) }
    ensures noted { OnOk result (noted.new.first ≡ told_after fields.now noted.old.first) }
{
    let mut lists = no_lists(alloc);
    let mut notes = no_notes();
    let mut counts = nothing();
    for field in fields {
        put_field(alloc, &mut lists, declared, counts, field, &mut notes)?;
        counts = count_field(counts, field);
    }
    join_all(noted, notes);
    Ok(lists)
}
