//! How many identifiers are to come.

ghost use Rattle.std.specs.Prelude.{◌≤◌};

use crate::kind::SpaceKind;
use crate::spaces::declared;
use wc_surface::Field;

/// How many identifiers fields declare in each index space.
#[derive(Clone, Copy, PartialEq, Eq)]
pub(crate) struct Room {
    pub(crate) types: usize,
    pub(crate) funcs: usize,
    pub(crate) tables: usize,
    pub(crate) memories: usize,
    pub(crate) globals: usize,
}

/// How many identifiers a field declares in the index space: one, or none.
#[inline(always)]
fn named(kind: SpaceKind, field: &Field<'_>) -> usize
    ensures { result ≤ 1 }
{
    match declared(kind, field) {
        Some(Some(_)) => 1,
        _ => 0,
    }
}

/// How many identifiers the fields declare in each index space, in one walk. It takes no memory.
pub(crate) fn room_for(fields: &[Field<'_>]) -> Room {
    let mut room = Room {
        types: 0,
        funcs: 0,
        tables: 0,
        memories: 0,
        globals: 0,
    };
    for field in fields {
        room.types += named(SpaceKind::Type, field);
        room.funcs += named(SpaceKind::Func, field);
        room.tables += named(SpaceKind::Table, field);
        room.memories += named(SpaceKind::Memory, field);
        room.globals += named(SpaceKind::Global, field);
    }
    room
}
