//! The order of fields.

ghost use Rattle.std.specs.Prelude.{◌≡◌};
ghost use Rattle.wc_spaces.specs.Standard.Least.{least_from};
ghost use Rattle.wc_declare.specs.Standard.Order.{func_sort, table_sort, memory_sort, global_sort};
ghost use Rattle.wc_declare.specs.Standard.Order.{late, second, defines, starts};
ghost use Rattle.wc_declare.specs.Kept.Gathered.{Follows};

use wc_resolve_code::NameWhy;
use wc_spaces::Noted;
use wc_surface::{Field, FuncSeen, GlobalDesc, KeptFunc, MemoryDesc, TableDesc};

/// What the order of fields asks of a field (Core 1.0, 6.6.13).
#[derive(Clone, Copy, PartialEq, Eq)]
pub enum Sort {
    /// An import, inline too, with the number of its word.
    Import(u32),
    /// A function, a table, a memory or a global that is no import.
    Definition,
    /// A start function, with the number of its word.
    Start(u32),
    Other,
}

/// What was seen of the order of fields, and what is wrong with it.
#[derive(Clone, Copy)]
pub struct Order {
    /// A definition was seen.
    pub defined: bool,
    /// A start was seen.
    pub started: bool,
    /// Imports behind a definition.
    pub late: Noted<NameWhy>,
    /// Starts behind another.
    pub second: Noted<NameWhy>,
}

fn sort_of_func<'a>(func: &'a KeptFunc<'_>) -> Sort
    ensures { result ≡ func_sort func.now.desc }
{
    match func.desc() {
        FuncSeen::Import(names) => Sort::Import(names.token),
        FuncSeen::Code { .. } => Sort::Definition,
    }
}

fn sort_of_table(desc: &TableDesc<'_>) -> Sort
    ensures { result ≡ table_sort desc.now }
{
    match desc {
        TableDesc::Import(names, _) => Sort::Import(names.get().token),
        TableDesc::Limits(_) | TableDesc::Elems(_) => Sort::Definition,
    }
}

fn sort_of_memory(desc: &MemoryDesc<'_>) -> Sort
    ensures { result ≡ memory_sort desc.now }
{
    match desc {
        MemoryDesc::Import(names, _) => Sort::Import(names.get().token),
        MemoryDesc::Limits(_) | MemoryDesc::Bytes(_) => Sort::Definition,
    }
}

fn sort_of_global(desc: &GlobalDesc<'_>) -> Sort
    ensures { result ≡ global_sort desc.now }
{
    match desc {
        GlobalDesc::Import(names) => Sort::Import(names.get().token),
        GlobalDesc::Init(_) => Sort::Definition,
    }
}

fn sort_of<'a>(field: &'a Field<'_>) -> Sort
    ensures { result ≡ Rattle.wc_declare.specs.Standard.Order.sort_of field.now }
{
    match field {
        Field::Import(import) => Sort::Import(import.get().names.token),
        Field::Func(func) => sort_of_func(func),
        Field::Table(table) => sort_of_table(&table.desc),
        Field::Memory(memory) => sort_of_memory(&memory.desc),
        Field::Global(global) => sort_of_global(&global.desc),
        Field::Start(start) => Sort::Start(start.token),
        Field::FuncType(_) | Field::Export(_) | Field::Elem(_) | Field::Data(_) => Sort::Other,
    }
}

/// Notes an import, where a definition was seen.
fn judge_late(seen: bool, sort: Sort, noted: &mut Noted<NameWhy>)
    ensures { noted.new.first ≡ least_from noted.old.first (late seen sort) }
{
    match (seen, sort) {
        (true, Sort::Import(token)) => noted.note(token, NameWhy::LateImport),
        _ => {}
    }
}

/// Notes a start, where one was seen.
fn judge_second(seen: bool, sort: Sort, noted: &mut Noted<NameWhy>)
    ensures { noted.new.first ≡ least_from noted.old.first (second seen sort) }
{
    match (seen, sort) {
        (true, Sort::Start(token)) => noted.note(token, NameWhy::SecondStart),
        _ => {}
    }
}

fn is_definition(sort: Sort) -> bool
    ensures { result ≡ defines sort }
{
    match sort {
        Sort::Definition => true,
        Sort::Import(_) | Sort::Start(_) | Sort::Other => false,
    }
}

fn is_start(sort: Sort) -> bool
    ensures { result ≡ starts sort }
{
    match sort {
        Sort::Start(_) => true,
        Sort::Import(_) | Sort::Definition | Sort::Other => false,
    }
}

/// Judges the place of one more field.
pub(crate) fn note_order<'a>(order: &mut Order, field: &'a Field<'_>)
    ensures { Follows field.now order.old order.new }
{
    let sort = sort_of(field);
    judge_late(order.defined, sort, &mut order.late);
    judge_second(order.started, sort, &mut order.second);
    order.defined = order.defined | is_definition(sort);
    order.started = order.started | is_start(sort);
}
