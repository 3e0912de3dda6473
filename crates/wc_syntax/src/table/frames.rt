//! What a frame takes, where no part is left in front of its rest.

ghost use Rattle.std.specs.Prelude.{◌≡◌};
ghost use Rattle.wc_syntax.specs.Tables.Table.{frame_rows, open_rows, field_rows, instr_rows, folded_rows};
ghost use Rattle.wc_syntax.specs.Tables.Table.{find, or_else};
ghost use Rattle.wc_syntax.specs.Tables.Table.{if_takes, takes_instrs, takes_folded};

use crate::kind::Kind;
use crate::place::{Action, Frame, Move, Place};
use crate::role::Role;
use crate::table::actions::{drops, keeps};

/// What an instruction's name does, over a frame that takes instructions.
#[inline(always)]
fn instr_step(deep: bool, kind: Kind) -> Option<Action>
    ensures { result ≡ find (instr_rows deep) kind }
{
    match kind {
        Kind::Simple => keeps(Role::Plain, Move::Past(Place::Done)),
        Kind::Indexed => keeps(Role::Plain, Move::Past(Place::Index)),
        Kind::BrTable => keeps(Role::Plain, Move::Past(Place::FirstIndex)),
        Kind::CallIndirect => keeps(Role::Plain, Move::Past(Place::Uses)),
        Kind::Access => keeps(Role::Plain, Move::Past(Place::MemOffset)),
        Kind::Const32 => keeps(Role::Plain, Move::Past(Place::Literal32)),
        Kind::Const64 => keeps(Role::Plain, Move::Past(Place::Literal64)),
        Kind::Open => drops(Move::On(Place::OpenDone)),
        Kind::Region if !deep => keeps(Role::Begin, Move::Into(Place::Label, Frame::Region)),
        Kind::If if !deep => keeps(Role::Begin, Move::Into(Place::Label, Frame::First)),
        _ => None,
    }
}

/// What it does behind a parenthesis, over a frame that takes folded instructions.
#[inline(always)]
fn folded_step(deep: bool, kind: Kind) -> Option<Action>
    ensures { result ≡ find (folded_rows deep) kind }
{
    if deep {
        return None;
    }
    match kind {
        Kind::Simple => keeps(Role::HeldPlain, Move::Into(Place::Done, Frame::Held)),
        Kind::Indexed => keeps(Role::HeldPlain, Move::Into(Place::Index, Frame::Held)),
        Kind::BrTable => keeps(Role::HeldPlain, Move::Into(Place::FirstIndex, Frame::Held)),
        Kind::CallIndirect => keeps(Role::HeldPlain, Move::Into(Place::Uses, Frame::Held)),
        Kind::Access => keeps(Role::HeldPlain, Move::Into(Place::MemOffset, Frame::Held)),
        Kind::Const32 => keeps(Role::HeldPlain, Move::Into(Place::Literal32, Frame::Held)),
        Kind::Const64 => keeps(Role::HeldPlain, Move::Into(Place::Literal64, Frame::Held)),
        Kind::Region => keeps(Role::Begin, Move::Into(Place::Label, Frame::FoldedRegion)),
        Kind::If => keeps(Role::HeldBegin, Move::Into(Place::Label, Frame::Asked)),
        _ => None,
    }
}

/// Where no part is left in front of the frame's rest.
#[inline(always)]
pub fn frame_step(frame: Frame, deep: bool, kind: Kind) -> Option<Action>
    ensures { result ≡ or_else (find (frame_rows frame) kind) (if_takes (takes_instrs frame) (instr_rows deep) kind) }
{
    match frame {
        Frame::Start | Frame::Fields | Frame::Import | Frame::Elem | Frame::Data | Frame::Asked =>
            match kind {
                Kind::Open => drops(Move::On(Place::OpenDone)),
                _ => None,
            },
        Frame::Module => match kind {
            Kind::Open => drops(Move::On(Place::OpenDone)),
            Kind::Close => drops(Move::Turn(Place::Done, Frame::Closed)),
            _ => None,
        },
        Frame::Closed => None,
        Frame::Field => match kind {
            Kind::Close => keeps(Role::FieldEnd, Move::Out(Place::Done)),
            _ => None,
        },
        Frame::Described => match kind {
            Kind::Close => drops(Move::Turn(Place::Done, Frame::Field)),
            _ => None,
        },
        Frame::FuncStart | Frame::FuncHead | Frame::Func => match kind {
            Kind::Close => keeps(Role::FieldEnd, Move::Out(Place::Done)),
            _ => instr_step(deep, kind),
        },
        Frame::FuncImport => match kind {
            Kind::Close => drops(Move::Turn(Place::Uses, Frame::Field)),
            _ => None,
        },
        Frame::TableStart => match kind {
            Kind::Open => drops(Move::On(Place::OpenDone)),
            Kind::Natural32 => keeps(Role::LimitsMin, Move::Turn(Place::TableMax, Frame::Field)),
            Kind::FuncrefWord => drops(Move::Turn(Place::TableElem, Frame::Field)),
            _ => None,
        },
        Frame::TableImport => match kind {
            Kind::Close => drops(Move::Turn(Place::TableMin, Frame::Field)),
            _ => None,
        },
        Frame::MemoryStart => match kind {
            Kind::Open => drops(Move::On(Place::OpenDone)),
            Kind::Natural32 => keeps(Role::LimitsMin, Move::Turn(Place::Max, Frame::Field)),
            _ => None,
        },
        Frame::MemoryImport => match kind {
            Kind::Close => drops(Move::Turn(Place::Min, Frame::Field)),
            _ => None,
        },
        Frame::GlobalStart => match kind {
            Kind::Open => drops(Move::On(Place::OpenDone)),
            Kind::ValType => keeps(Role::GlobalType, Move::Turn(Place::Done, Frame::Func)),
            _ => None,
        },
        Frame::GlobalImport => match kind {
            Kind::Close => drops(Move::Turn(Place::GlobalType, Frame::Field)),
            _ => None,
        },
        Frame::ElemOffset => match kind {
            Kind::Close => drops(Move::Turn(Place::Done, Frame::ElemTail)),
            _ => instr_step(deep, kind),
        },
        Frame::ElemTail => match kind {
            Kind::FuncWord => drops(Move::Turn(Place::Done, Frame::Elements)),
            Kind::Natural32 | Kind::Id => keeps(
                Role::Element,
                Move::Turn(Place::Done, Frame::Elements),
            ),
            Kind::Close => keeps(Role::FieldEnd, Move::Out(Place::Done)),
            _ => None,
        },
        Frame::Elements => match kind {
            Kind::Natural32 | Kind::Id => keeps(Role::Element, Move::On(Place::Done)),
            Kind::Close => keeps(Role::FieldEnd, Move::Out(Place::Done)),
            _ => None,
        },
        Frame::DataOffset => match kind {
            Kind::Close => drops(Move::Turn(Place::Done, Frame::Strings)),
            _ => instr_step(deep, kind),
        },
        Frame::Strings => match kind {
            Kind::Name | Kind::Text => keeps(Role::Bytes, Move::On(Place::Done)),
            Kind::Close => keeps(Role::FieldEnd, Move::Out(Place::Done)),
            _ => None,
        },
        Frame::Region => match kind {
            Kind::EndWord => keeps(Role::End, Move::Out(Place::EndLabel)),
            _ => instr_step(deep, kind),
        },
        Frame::First => match kind {
            Kind::ElseWord => keeps(Role::Else, Move::Turn(Place::EndLabel, Frame::Region)),
            Kind::EndWord => keeps(Role::End, Move::Out(Place::EndLabel)),
            _ => instr_step(deep, kind),
        },
        Frame::FoldedRegion => match kind {
            Kind::Close => keeps(Role::End, Move::Out(Place::Done)),
            _ => instr_step(deep, kind),
        },
        Frame::Held => match kind {
            Kind::Open => drops(Move::On(Place::OpenDone)),
            Kind::Close => keeps(Role::HeldEnd, Move::Out(Place::Done)),
            _ => None,
        },
        Frame::Then => match kind {
            Kind::Close => drops(Move::Turn(Place::Done, Frame::Chosen)),
            _ => instr_step(deep, kind),
        },
        Frame::Chosen => match kind {
            Kind::Open => drops(Move::On(Place::OpenDone)),
            Kind::Close => keeps(Role::End, Move::Out(Place::Done)),
            _ => None,
        },
        Frame::Else => match kind {
            Kind::Close => drops(Move::Turn(Place::Done, Frame::Settled)),
            _ => instr_step(deep, kind),
        },
        Frame::Settled => match kind {
            Kind::Close => keeps(Role::End, Move::Out(Place::Done)),
            _ => None,
        },
    }
}

/// What the word of a field leads to.
#[inline(always)]
fn field_word(kind: Kind) -> Option<Action>
    ensures { result ≡ find field_rows kind }
{
    match kind {
        Kind::TypeWord => keeps(Role::Field, Move::Into(Place::TypeId, Frame::Described)),
        Kind::ImportWord => keeps(Role::Field, Move::Into(Place::ModuleName, Frame::Import)),
        Kind::FuncWord => keeps(Role::Field, Move::Into(Place::ExportedId, Frame::FuncStart)),
        Kind::TableWord => keeps(
            Role::Field,
            Move::Into(Place::ExportedId, Frame::TableStart),
        ),
        Kind::MemoryWord => keeps(
            Role::Field,
            Move::Into(Place::ExportedId, Frame::MemoryStart),
        ),
        Kind::GlobalWord => keeps(
            Role::Field,
            Move::Into(Place::ExportedId, Frame::GlobalStart),
        ),
        Kind::ExportWord => keeps(Role::Field, Move::Into(Place::ExportName, Frame::Field)),
        Kind::StartWord => keeps(Role::Field, Move::Into(Place::StartIndex, Frame::Field)),
        Kind::ElemWord => keeps(Role::Field, Move::Into(Place::SegmentIndex, Frame::Elem)),
        Kind::DataWord => keeps(Role::Field, Move::Into(Place::SegmentIndex, Frame::Data)),
        _ => None,
    }
}

/// Behind a parenthesis, where no part is left in front of the frame's rest.
#[inline(always)]
pub fn open_step(frame: Frame, deep: bool, kind: Kind) -> Option<Action>
    ensures { result ≡ or_else (find (open_rows frame) kind) (if_takes (takes_folded frame) (folded_rows deep) kind) }
{
    match frame {
        Frame::Start => match kind {
            Kind::ModuleWord => drops(Move::Turn(Place::ModuleId, Frame::Module)),
            _ => field_word(kind),
        },
        Frame::Fields | Frame::Module => field_word(kind),
        Frame::FuncStart => match kind {
            Kind::ImportWord => keeps(
                Role::ImportWord,
                Move::Turn(Place::ModuleName, Frame::FuncImport),
            ),
            Kind::TypeWord => drops(Move::Turn(Place::UseIndex, Frame::FuncHead)),
            Kind::ParamWord => drops(Move::Turn(Place::Param, Frame::FuncHead)),
            Kind::ResultWord => drops(Move::Turn(Place::ResultTypes, Frame::FuncHead)),
            Kind::LocalWord => drops(Move::Turn(Place::Local, Frame::FuncHead)),
            _ => folded_step(deep, kind),
        },
        Frame::FuncHead => match kind {
            Kind::LocalWord => drops(Move::On(Place::Local)),
            _ => folded_step(deep, kind),
        },
        Frame::Import => match kind {
            Kind::FuncWord => keeps(
                Role::Description,
                Move::Turn(Place::FuncId, Frame::Described),
            ),
            Kind::TableWord => keeps(
                Role::Description,
                Move::Turn(Place::TableId, Frame::Described),
            ),
            Kind::MemoryWord => keeps(
                Role::Description,
                Move::Turn(Place::MemoryId, Frame::Described),
            ),
            Kind::GlobalWord => keeps(
                Role::Description,
                Move::Turn(Place::GlobalId, Frame::Described),
            ),
            _ => None,
        },
        Frame::TableStart => match kind {
            Kind::ImportWord => keeps(
                Role::ImportWord,
                Move::Turn(Place::ModuleName, Frame::TableImport),
            ),
            _ => None,
        },
        Frame::MemoryStart => match kind {
            Kind::ImportWord => keeps(
                Role::ImportWord,
                Move::Turn(Place::ModuleName, Frame::MemoryImport),
            ),
            Kind::DataWord => keeps(
                Role::Segment,
                Move::Turn(Place::MemoryStrings, Frame::Field),
            ),
            _ => None,
        },
        Frame::GlobalStart => match kind {
            Kind::ImportWord => keeps(
                Role::ImportWord,
                Move::Turn(Place::ModuleName, Frame::GlobalImport),
            ),
            Kind::MutWord => keeps(Role::Mutable, Move::Turn(Place::MutableType, Frame::Func)),
            _ => None,
        },
        Frame::Elem => match kind {
            Kind::OffsetWord => drops(Move::Turn(Place::Done, Frame::ElemOffset)),
            _ => folded_step(deep, kind),
        },
        Frame::Data => match kind {
            Kind::OffsetWord => drops(Move::Turn(Place::Done, Frame::DataOffset)),
            _ => folded_step(deep, kind),
        },
        Frame::Asked => match kind {
            Kind::ThenWord => keeps(Role::Then, Move::Turn(Place::Done, Frame::Then)),
            _ => folded_step(deep, kind),
        },
        Frame::Chosen => match kind {
            Kind::ElseWord => keeps(Role::Else, Move::Turn(Place::Done, Frame::Else)),
            _ => None,
        },
        Frame::Func
        | Frame::ElemOffset
        | Frame::DataOffset
        | Frame::Region
        | Frame::First
        | Frame::FoldedRegion
        | Frame::Held
        | Frame::Then
        | Frame::Else => folded_step(deep, kind),
        _ => None,
    }
}
