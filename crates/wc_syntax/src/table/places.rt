//! What the parts take that stand in front of a frame's rest.

ghost use Rattle.std.specs.Prelude.{◌≡◌};
ghost use Rattle.wc_syntax.specs.Tables.Table.{place_rows, part_rows, use_rows, find};

use crate::kind::Kind;
use crate::place::{Action, Move, Place};
use crate::role::Role;
use crate::table::actions::{drops, keeps};

/// What a type use takes, over any frame.
#[inline(always)]
fn use_step(place: Place, kind: Kind) -> Option<Action>
    ensures { result ≡ find (use_rows place) kind }
{
    match place {
        Place::UseIndex => match kind {
            Kind::Natural32 | Kind::Id => keeps(Role::TypeIndex, Move::On(Place::UseEnd)),
            _ => None,
        },
        Place::UseEnd => match kind {
            Kind::Close => drops(Move::On(Place::Params)),
            _ => None,
        },
        Place::Param => match kind {
            Kind::Id => keeps(Role::ParamId, Move::On(Place::NamedParam)),
            Kind::ValType => keeps(Role::ParamType, Move::On(Place::ParamTypes)),
            Kind::Close => drops(Move::On(Place::Params)),
            _ => None,
        },
        Place::NamedParam => match kind {
            Kind::ValType => keeps(Role::ParamType, Move::On(Place::ParamEnd)),
            _ => None,
        },
        Place::ParamEnd => match kind {
            Kind::Close => drops(Move::On(Place::Params)),
            _ => None,
        },
        Place::ParamTypes => match kind {
            Kind::ValType => keeps(Role::ParamType, Move::On(Place::ParamTypes)),
            Kind::Close => drops(Move::On(Place::Params)),
            _ => None,
        },
        Place::ResultTypes => match kind {
            Kind::ValType => keeps(Role::ResultType, Move::On(Place::ResultTypes)),
            Kind::Close => drops(Move::On(Place::Results)),
            _ => None,
        },
        _ => None,
    }
}

/// What the parts of a field take that stand over a frame which they need not ask.
#[inline(always)]
fn field_step(place: Place, kind: Kind) -> Option<Action>
    ensures { result ≡ find (part_rows place) kind }
{
    match place {
        Place::InlineExportName => match kind {
            Kind::Name => keeps(Role::ExportName, Move::On(Place::InlineExportEnd)),
            _ => None,
        },
        Place::InlineExportEnd => match kind {
            Kind::Close => drops(Move::On(Place::Exports)),
            _ => None,
        },
        Place::TypeId => match kind {
            Kind::Id => keeps(Role::FieldId, Move::On(Place::TypeFunc)),
            Kind::Open => drops(Move::On(Place::OpenTypeFunc)),
            _ => None,
        },
        Place::TypeFunc => match kind {
            Kind::Open => drops(Move::On(Place::OpenTypeFunc)),
            _ => None,
        },
        Place::OpenTypeFunc => match kind {
            Kind::FuncWord => drops(Move::On(Place::Params)),
            _ => None,
        },
        Place::ModuleName => match kind {
            Kind::Name => keeps(Role::ModuleName, Move::On(Place::ItemName)),
            _ => None,
        },
        Place::ItemName => match kind {
            Kind::Name => keeps(Role::ItemName, Move::On(Place::Done)),
            _ => None,
        },
        Place::TableMin => match kind {
            Kind::Natural32 => keeps(Role::LimitsMin, Move::On(Place::TableMax)),
            _ => None,
        },
        Place::TableMax => match kind {
            Kind::Natural32 => keeps(Role::LimitsMax, Move::On(Place::Funcref)),
            Kind::FuncrefWord => drops(Move::On(Place::Done)),
            _ => None,
        },
        Place::Funcref => match kind {
            Kind::FuncrefWord => drops(Move::On(Place::Done)),
            _ => None,
        },
        Place::Min => match kind {
            Kind::Natural32 => keeps(Role::LimitsMin, Move::On(Place::Max)),
            _ => None,
        },
        Place::GlobalType => match kind {
            Kind::ValType => keeps(Role::GlobalType, Move::On(Place::Done)),
            Kind::Open => drops(Move::On(Place::OpenGlobalType)),
            _ => None,
        },
        Place::OpenGlobalType => match kind {
            Kind::MutWord => keeps(Role::Mutable, Move::On(Place::MutableType)),
            _ => None,
        },
        Place::MutableType => match kind {
            Kind::ValType => keeps(Role::GlobalType, Move::On(Place::MutableEnd)),
            _ => None,
        },
        Place::MutableEnd => match kind {
            Kind::Close => drops(Move::On(Place::Done)),
            _ => None,
        },
        Place::TableElem => match kind {
            Kind::Open => drops(Move::On(Place::OpenTableElem)),
            _ => None,
        },
        Place::OpenTableElem => match kind {
            Kind::ElemWord => keeps(Role::Segment, Move::On(Place::TableElements)),
            _ => None,
        },
        Place::TableElements => match kind {
            Kind::Natural32 | Kind::Id => keeps(Role::Element, Move::On(Place::TableElements)),
            Kind::Close => drops(Move::On(Place::Done)),
            _ => None,
        },
        Place::MemoryStrings => match kind {
            Kind::Name | Kind::Text => keeps(Role::Bytes, Move::On(Place::MemoryStrings)),
            Kind::Close => drops(Move::On(Place::Done)),
            _ => None,
        },
        Place::ExportName => match kind {
            Kind::Name => keeps(Role::ExportName, Move::On(Place::ExportDescription)),
            _ => None,
        },
        Place::ExportDescription => match kind {
            Kind::Open => drops(Move::On(Place::OpenExportDescription)),
            _ => None,
        },
        Place::OpenExportDescription => match kind {
            Kind::FuncWord | Kind::TableWord | Kind::MemoryWord | Kind::GlobalWord => {
                keeps(Role::Description, Move::On(Place::ExportIndex))
            }
            _ => None,
        },
        Place::ExportIndex => match kind {
            Kind::Natural32 | Kind::Id => keeps(Role::Target, Move::On(Place::ExportEnd)),
            _ => None,
        },
        Place::ExportEnd => match kind {
            Kind::Close => drops(Move::On(Place::Done)),
            _ => None,
        },
        Place::StartIndex => match kind {
            Kind::Natural32 | Kind::Id => keeps(Role::Target, Move::On(Place::Done)),
            _ => None,
        },
        Place::TableId => match kind {
            Kind::Id => keeps(Role::FieldId, Move::On(Place::TableMin)),
            Kind::Natural32 => keeps(Role::LimitsMin, Move::On(Place::TableMax)),
            _ => None,
        },
        Place::MemoryId => match kind {
            Kind::Id => keeps(Role::FieldId, Move::On(Place::Min)),
            Kind::Natural32 => keeps(Role::LimitsMin, Move::On(Place::Max)),
            _ => None,
        },
        Place::GlobalId => match kind {
            Kind::Id => keeps(Role::FieldId, Move::On(Place::GlobalType)),
            Kind::ValType => keeps(Role::GlobalType, Move::On(Place::Done)),
            Kind::Open => drops(Move::On(Place::OpenGlobalType)),
            _ => None,
        },
        Place::Local => match kind {
            Kind::Id => keeps(Role::LocalId, Move::On(Place::NamedLocal)),
            Kind::ValType => keeps(Role::LocalType, Move::On(Place::LocalTypes)),
            Kind::Close => drops(Move::On(Place::Done)),
            _ => None,
        },
        Place::NamedLocal => match kind {
            Kind::ValType => keeps(Role::LocalType, Move::On(Place::LocalEnd)),
            _ => None,
        },
        Place::LocalEnd => match kind {
            Kind::Close => drops(Move::On(Place::Done)),
            _ => None,
        },
        Place::LocalTypes => match kind {
            Kind::ValType => keeps(Role::LocalType, Move::On(Place::LocalTypes)),
            Kind::Close => drops(Move::On(Place::Done)),
            _ => None,
        },
        _ => use_step(place, kind),
    }
}

/// What the place itself takes.
#[inline(always)]
pub fn place_step(place: Place, kind: Kind) -> Option<Action>
    ensures { result ≡ find (place_rows place) kind }
{
    match place {
        Place::Index => match kind {
            Kind::Natural32 | Kind::Id => keeps(Role::Index, Move::On(Place::Done)),
            _ => None,
        },
        Place::Literal32 => match kind {
            Kind::Natural32 | Kind::Signed32 => keeps(Role::Literal, Move::On(Place::Done)),
            _ => None,
        },
        Place::Literal64 => match kind {
            Kind::Natural32 | Kind::Natural64 | Kind::Signed32 | Kind::Signed64 => {
                keeps(Role::Literal, Move::On(Place::Done))
            }
            _ => None,
        },
        Place::FirstIndex => match kind {
            Kind::Natural32 | Kind::Id => keeps(Role::Index, Move::On(Place::Indices)),
            _ => None,
        },
        Place::Indices => match kind {
            Kind::Natural32 | Kind::Id => keeps(Role::Index, Move::On(Place::Indices)),
            _ => None,
        },
        Place::MemOffset => match kind {
            Kind::MemOffset => keeps(Role::MemOffset, Move::On(Place::MemAlign)),
            Kind::MemAlign => keeps(Role::MemAlign, Move::On(Place::Done)),
            _ => None,
        },
        Place::MemAlign => match kind {
            Kind::MemAlign => keeps(Role::MemAlign, Move::On(Place::Done)),
            _ => None,
        },
        Place::Label => match kind {
            Kind::Id => keeps(Role::Label, Move::On(Place::Uses)),
            Kind::Open => drops(Move::On(Place::OpenUses)),
            _ => None,
        },
        Place::EndLabel => match kind {
            Kind::Id => keeps(Role::EndLabel, Move::On(Place::Done)),
            _ => None,
        },
        Place::Uses => match kind {
            Kind::Open => drops(Move::On(Place::OpenUses)),
            _ => None,
        },
        Place::Params => match kind {
            Kind::Open => drops(Move::On(Place::OpenParams)),
            _ => None,
        },
        Place::Results => match kind {
            Kind::Open => drops(Move::On(Place::OpenResults)),
            _ => None,
        },
        Place::OpenUses => match kind {
            Kind::TypeWord => drops(Move::On(Place::UseIndex)),
            Kind::ParamWord => drops(Move::On(Place::Param)),
            Kind::ResultWord => drops(Move::On(Place::ResultTypes)),
            _ => None,
        },
        Place::OpenParams => match kind {
            Kind::ParamWord => drops(Move::On(Place::Param)),
            Kind::ResultWord => drops(Move::On(Place::ResultTypes)),
            _ => None,
        },
        Place::OpenResults => match kind {
            Kind::ResultWord => drops(Move::On(Place::ResultTypes)),
            _ => None,
        },
        Place::ModuleId => match kind {
            Kind::Id => drops(Move::On(Place::Done)),
            _ => None,
        },
        Place::ExportedId => match kind {
            Kind::Id => keeps(Role::FieldId, Move::On(Place::Exports)),
            Kind::Open => drops(Move::On(Place::OpenExports)),
            _ => None,
        },
        Place::Exports => match kind {
            Kind::Open => drops(Move::On(Place::OpenExports)),
            _ => None,
        },
        Place::OpenExports => match kind {
            Kind::ExportWord => drops(Move::On(Place::InlineExportName)),
            _ => None,
        },
        Place::FuncId => match kind {
            Kind::Id => keeps(Role::FieldId, Move::On(Place::Uses)),
            Kind::Open => drops(Move::On(Place::OpenUses)),
            _ => None,
        },
        Place::Max => match kind {
            Kind::Natural32 => keeps(Role::LimitsMax, Move::On(Place::Done)),
            _ => None,
        },
        Place::SegmentIndex => match kind {
            Kind::Natural32 | Kind::Id => keeps(Role::Target, Move::On(Place::Done)),
            _ => None,
        },
        _ => field_step(place, kind),
    }
}
