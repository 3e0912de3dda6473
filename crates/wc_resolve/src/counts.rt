//! How much is declared before a field.

ghost use Rattle.std.specs.Prelude.{◌≡◌, ◌≤◌, ◌+◌, ◌-◌, ◌^◌, ℕ, Option, length};
ghost use Rattle.wc_surface.specs.Standard.Identifiers.{Identifier};
ghost use Rattle.wc_declare.specs.Standard.Spaces.{brings, declares};
ghost use Rattle.wc_resolve.specs.Standard.Counts.{no_counts, counts_after};
ghost use Rattle.wc_resolve.specs.Kept.Counted.{AtMost};

use wc_declare::SpaceKind;
use wc_surface::{Field, ImportDesc};

/// How many functions, tables, memories and globals are declared before a field (Core 1.0, 6.6.1): the next one has
/// that number for its index.
#[derive(Clone, Copy, PartialEq, Eq)]
pub struct Counts {
    pub funcs: u32,
    pub tables: u32,
    pub memories: u32,
    pub globals: u32,
}

/// Nothing is declared.
pub(crate) fn nothing() -> Counts
    ensures { result ≡ no_counts }
{
    Counts {
        funcs: 0,
        tables: 0,
        memories: 0,
        globals: 0,
    }
}

/// How many an import declares in the index space: one or none.
fn brought(kind: SpaceKind, desc: &ImportDesc<'_>) -> u32
    ensures count { (id : Option Identifier) → result ≡ length (brings kind desc.now id) }
    ensures few { result ≤ 1 }
{
    match (kind, desc) {
        (SpaceKind::Func, ImportDesc::Func(_)) => 1,
        (SpaceKind::Table, ImportDesc::Table(_)) => 1,
        (SpaceKind::Memory, ImportDesc::Memory(_)) => 1,
        (SpaceKind::Global, ImportDesc::Global(_)) => 1,
        _ => 0,
    }
}

/// How many a field declares in the index space: one or none.
fn count_of(kind: SpaceKind, field: &Field<'_>) -> u32
    ensures count { result ≡ length (declares kind field.now) }
    ensures few { result ≤ 1 }
{
    match (field, kind) {
        (Field::Import(import), _) => brought(kind, &import.get().desc),
        (Field::FuncType(_), SpaceKind::Type) => 1,
        (Field::Func(_), SpaceKind::Func) => 1,
        (Field::Table(_), SpaceKind::Table) => 1,
        (Field::Memory(_), SpaceKind::Memory) => 1,
        (Field::Global(_), SpaceKind::Global) => 1,
        _ => 0,
    }
}

/// How much is declared behind one more field.
pub(crate) fn count_field(counts: Counts, field: &Field<'_>) -> Counts
    requires { AtMost (2 ^ 32 - 2) counts }
    ensures counts { result ≡ counts_after counts field.now }
    ensures few { (most : ℕ) → AtMost most counts → AtMost (most + 1) result }
{
    Counts {
        funcs: counts.funcs + count_of(SpaceKind::Func, field),
        tables: counts.tables + count_of(SpaceKind::Table, field),
        memories: counts.memories + count_of(SpaceKind::Memory, field),
        globals: counts.globals + count_of(SpaceKind::Global, field),
    }
}
