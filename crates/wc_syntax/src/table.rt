//! What a token does where so much is left to read.

mod actions;
mod frames;
mod places;

ghost use Rattle.std.specs.Prelude.{◌≡◌};
ghost use Rattle.wc_syntax.specs.Tables.Table.{rest_of, takes_instrs, takes_folded, names_instr, step, is_end, resume};

use crate::kind::Kind;
use crate::place::{Action, Frame, Place};
use frames::{frame_step, open_step};
pub use places::place_step;

/// What is asked after the place's own row.
#[derive(Clone, Copy, PartialEq, Eq)]
pub enum Rest {
    Nothing,
    InFrame,
    Opened,
}

#[inline(always)]
pub fn rest_of(place: Place) -> Rest
    ensures { result ≡ rest_of place }
{
    match place {
        Place::Done
        | Place::Indices
        | Place::MemOffset
        | Place::MemAlign
        | Place::Label
        | Place::EndLabel
        | Place::Uses
        | Place::Params
        | Place::Results
        | Place::ModuleId
        | Place::ExportedId
        | Place::Exports
        | Place::FuncId
        | Place::Max
        | Place::SegmentIndex => Rest::InFrame,
        Place::OpenDone
        | Place::OpenUses
        | Place::OpenParams
        | Place::OpenResults
        | Place::OpenExports => Rest::Opened,
        _ => Rest::Nothing,
    }
}

/// Where a token of the kind leads.
#[inline(always)]
pub fn step(place: Place, frame: Frame, deep: bool, kind: Kind) -> Option<Action>
    ensures { result ≡ step place frame deep kind }
{
    if let Some(action) = place_step(place, kind) {
        return Some(action);
    }
    match rest_of(place) {
        Rest::Nothing => None,
        Rest::InFrame => frame_step(frame, deep, kind),
        Rest::Opened => open_step(frame, deep, kind),
    }
}

#[inline(always)]
pub fn takes_instrs(frame: Frame) -> bool
    ensures { result ≡ takes_instrs frame }
{
    matches!(
        frame,
        Frame::FuncStart
            | Frame::FuncHead
            | Frame::Func
            | Frame::ElemOffset
            | Frame::DataOffset
            | Frame::Region
            | Frame::First
            | Frame::FoldedRegion
            | Frame::Then
            | Frame::Else
    )
}

#[inline(always)]
pub fn takes_folded(frame: Frame) -> bool
    ensures { result ≡ takes_folded frame }
{
    takes_instrs(frame)
        || matches!(
            frame,
            Frame::Elem | Frame::Data | Frame::Held | Frame::Asked
        )
}

/// The name of an instruction is looked for.
pub fn names_instr(place: Place, frame: Frame) -> bool
    ensures { result ≡ names_instr place frame }
{
    match rest_of(place) {
        Rest::Nothing => false,
        Rest::InFrame => takes_instrs(frame),
        Rest::Opened => takes_folded(frame),
    }
}

/// No token has to follow.
pub fn is_end(place: Place, frame: Frame) -> bool
    ensures { result ≡ is_end place frame }
{
    match frame {
        Frame::Start | Frame::Fields | Frame::Closed => matches!(rest_of(place), Rest::InFrame),
        _ => false,
    }
}

/// What is left of a frame where an instruction stands in it, or where one more opens.
#[inline(always)]
pub fn resume(frame: Frame) -> Frame
    ensures { result ≡ resume frame }
{
    match frame {
        Frame::Start => Frame::Fields,
        Frame::Elem => Frame::ElemTail,
        Frame::Data => Frame::Strings,
        Frame::FuncStart | Frame::FuncHead => Frame::Func,
        _ => frame,
    }
}
