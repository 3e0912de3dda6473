//! The most usual tokens, those of instructions in which none is nested, read without a look at the whole table.

ghost use Rattle.std.specs.Prelude.{◌≡◌, ◌++◌, ◌∷◌, [], ◌&&◌, ◌||◌, not, ℕ, List, length, true, false, Some, None};
ghost use Rattle.std.specs.Prelude.{OnErr, IfOk, IfSome, is_some};
ghost use Rattle.wc_syntax.specs.Standard.Deriving.{Event};
ghost use Rattle.wc_syntax.specs.Standard.Reading.{IsRead, is_deep, kept_as};
ghost use Rattle.wc_syntax.specs.Tables.Table.{takes_instrs, takes_folded, find, place_rows};
ghost use Rattle.wc_syntax.specs.Tables.Usual.{is_free, takes_name, takes_open, behind_name, begun_frame, ends_by_word};
ghost use Rattle.wc_syntax.specs.Tables.Usual.{is_opened, opened_part, is_held, behind_index};
ghost use Rattle.wc_syntax.specs.Tables.Usual.{is_literal, is_offset, is_align, kept_on};
ghost use Rattle.wc_syntax.specs.declared.kind.Kind.{Kind as TokenKind};
ghost use Rattle.wc_syntax.specs.declared.kind.Kind.TheVariants as kinds;
ghost use Rattle.wc_syntax.specs.declared.role.Role.TheVariants as roles;

use crate::kind::Kind;
use crate::place::{Frame, Move, Place};
use crate::reading::Reading;
use crate::role::Role;
use crate::table::{place_step, resume, takes_folded, takes_instrs};
use std::alloc::AllocError;

/// Nothing has to follow in front of the frame's rest, and no name or parenthesis may.
#[inline(always)]
fn is_free(place: Place) -> bool
    ensures { result ≡ is_free place }
{
    matches!(
        place,
        Place::Done | Place::EndLabel | Place::Indices | Place::MemOffset | Place::MemAlign
    )
}

/// Nothing has to follow in front of the frame's rest, and no name may.
#[inline(always)]
fn takes_name(place: Place) -> bool
    ensures { result ≡ takes_name place }
{
    matches!(
        place,
        Place::Done
            | Place::Uses
            | Place::Params
            | Place::Results
            | Place::Label
            | Place::EndLabel
            | Place::Indices
            | Place::MemOffset
            | Place::MemAlign
    )
}

/// A parenthesis may open a field, an instruction or a part in the frame.
#[inline(always)]
fn takes_open(frame: Frame) -> bool
    ensures { result ≡ takes_open frame }
{
    matches!(frame, Frame::Held | Frame::Module | Frame::Fields) || takes_instrs(frame)
}

/// What may follow the name of an instruction in which none is nested.
#[inline(always)]
fn behind_name(kind: Kind) -> Option<Place>
    ensures { result ≡ behind_name kind }
{
    match kind {
        Kind::Simple => Some(Place::Done),
        Kind::Indexed => Some(Place::Index),
        Kind::BrTable => Some(Place::FirstIndex),
        Kind::CallIndirect => Some(Place::Uses),
        Kind::Access => Some(Place::MemOffset),
        Kind::Const32 => Some(Place::Literal32),
        Kind::Const64 => Some(Place::Literal64),
        _ => None,
    }
}

/// The frame of a block in a list of instructions, by its name.
#[inline(always)]
fn begun_frame(kind: Kind) -> Option<Frame>
    ensures { result ≡ begun_frame kind }
{
    match kind {
        Kind::Region => Some(Frame::Region),
        Kind::If => Some(Frame::First),
        _ => None,
    }
}

/// A block that `end` ends.
#[inline(always)]
fn ends_by_word(frame: Frame) -> bool
    ensures { result ≡ ends_by_word frame }
{
    matches!(frame, Frame::Region | Frame::First)
}

/// A place behind a parenthesis that may be that of an instruction.
#[inline(always)]
fn is_opened(place: Place) -> bool
    ensures { result ≡ is_opened place }
{
    matches!(
        place,
        Place::OpenDone | Place::OpenUses | Place::OpenParams | Place::OpenResults
    )
}

/// The place behind a parenthesis that may be that of a part in front of the frame's rest.
#[inline(always)]
fn opened_part(place: Place) -> Option<Place>
    ensures { result ≡ opened_part place }
{
    match place {
        Place::Label | Place::Uses | Place::FuncId => Some(Place::OpenUses),
        Place::Params => Some(Place::OpenParams),
        Place::Results => Some(Place::OpenResults),
        Place::ExportedId | Place::Exports => Some(Place::OpenExports),
        _ => None,
    }
}

/// The frame of an instruction in front of its operands.
#[inline(always)]
fn is_held(frame: Frame) -> bool
    ensures { result ≡ is_held frame }
{
    matches!(frame, Frame::Held)
}

/// The place behind the number of an index.
#[inline(always)]
fn behind_index(place: Place, kind: Kind) -> Option<Place>
    ensures { result ≡ behind_index place kind }
{
    match (place, kind) {
        (Place::Index, Kind::Natural32 | Kind::Id) => Some(Place::Done),
        (Place::FirstIndex | Place::Indices, Kind::Natural32 | Kind::Id) => Some(Place::Indices),
        _ => None,
    }
}

/// A number of a constant, of 32 bits.
#[inline(always)]
fn is_literal(place: Place, kind: Kind) -> bool
    ensures { result ≡ is_literal place kind }
{
    matches!(
        (place, kind),
        (
            Place::Literal32 | Place::Literal64,
            Kind::Natural32 | Kind::Signed32,
        )
    )
}

/// The offset of a load or a store.
#[inline(always)]
fn is_offset(place: Place, kind: Kind) -> bool
    ensures { result ≡ is_offset place kind }
{
    matches!((place, kind), (Place::MemOffset, Kind::MemOffset))
}

/// The alignment of a load or a store.
#[inline(always)]
fn is_align(place: Place, kind: Kind) -> bool
    ensures { result ≡ is_align place kind }
{
    matches!(
        (place, kind),
        (Place::MemOffset | Place::MemAlign, Kind::MemAlign)
    )
}

/// Each of these reads one more token where it has its most usual place, and tells whether it does. Else the reader
/// stands where it stood, and `take` is for the token.
impl Reading {
    /// The name of an instruction in which none is nested, in a list of instructions.
    #[inline(always)]
    pub fn take_plain(&mut self, kind: Kind) -> bool
        ensures exact { result ≡ is_some (behind_name kind) && takes_name self.old.place
            && takes_instrs self.old.frame }
        ensures read { result ≡ true → (limit at : ℕ) (ks : List TokenKind) (es : List Event)
            → IsRead limit ks es self.old → at ≡ length ks
            → IsRead limit (ks ++ kind ∷ []) (es ++ kept_as (Some roles.Plain) at kind) self.new }
        ensures stays { result ≡ false → self.new ≡ self.old }
    {
        let Some(place) = behind_name(kind) else {
            return false;
        };
        if takes_name(self.place) && takes_instrs(self.frame) {
            self.place = place;
            self.frame = resume(self.frame);
            return true;
        }
        false
    }

    /// The same behind a parenthesis. The error is want of memory, and then the reader stands where it stood.
    #[inline(always)]
    pub fn take_held(&mut self, kind: Kind) -> Result<bool, AllocError>
        ensures exact { IfOk result (λ found. found ≡ is_some (behind_name kind) && is_opened self.old.place
            && takes_folded self.old.frame && not (is_deep self.old)) }
        ensures read { IfOk result (λ found. found ≡ true → (limit at : ℕ) (ks : List TokenKind) (es : List Event)
            → IsRead limit ks es self.old → at ≡ length ks
            → IsRead limit (ks ++ kind ∷ []) (es ++ kept_as (Some roles.HeldPlain) at kind) self.new) }
        ensures stays { IfOk result (λ found. found ≡ false → self.new ≡ self.old) }
        ensures err { OnErr result (self.new ≡ self.old) }
    {
        let Some(place) = behind_name(kind) else {
            return Ok(false);
        };
        if is_opened(self.place) && takes_folded(self.frame) && !self.is_deep() {
            self.go(Move::Into(place, Frame::Held))?;
            return Ok(true);
        }
        Ok(false)
    }

    /// The name of a block, a loop or an if, in a list of instructions. The error is want of memory, and then the
    /// reader stands where it stood.
    #[inline(always)]
    pub fn take_begin(&mut self, kind: Kind) -> Result<bool, AllocError>
        ensures exact { IfOk result (λ found. found ≡ is_some (begun_frame kind) && takes_name self.old.place
            && takes_instrs self.old.frame && not (is_deep self.old)) }
        ensures read { IfOk result (λ found. found ≡ true → (limit at : ℕ) (ks : List TokenKind) (es : List Event)
            → IsRead limit ks es self.old → at ≡ length ks
            → IsRead limit (ks ++ kind ∷ []) (es ++ kept_as (Some roles.Begin) at kind) self.new) }
        ensures stays { IfOk result (λ found. found ≡ false → self.new ≡ self.old) }
        ensures err { OnErr result (self.new ≡ self.old) }
    {
        let Some(frame) = begun_frame(kind) else {
            return Ok(false);
        };
        if takes_name(self.place) && takes_instrs(self.frame) && !self.is_deep() {
            self.go(Move::Into(Place::Label, frame))?;
            return Ok(true);
        }
        Ok(false)
    }

    /// The `end` of one of these.
    #[inline(always)]
    pub fn take_end(&mut self) -> bool
        ensures exact { result ≡ takes_name self.old.place && ends_by_word self.old.frame }
        ensures read { result ≡ true → (limit at : ℕ) (ks : List TokenKind) (es : List Event)
            → IsRead limit ks es self.old → at ≡ length ks
            → IsRead limit (ks ++ kinds.EndWord ∷ []) (es ++ kept_as (Some roles.End) at kinds.EndWord) self.new }
        ensures stays { result ≡ false → self.new ≡ self.old }
    {
        if takes_name(self.place) && ends_by_word(self.frame) {
            self.leave(Place::EndLabel);
            return true;
        }
        false
    }

    /// The parenthesis that opens a field or an instruction, or a part in front of it.
    #[inline(always)]
    pub fn take_open(&mut self) -> bool
        ensures exact { result ≡ (is_free self.old.place && takes_open self.old.frame)
            || is_some (opened_part self.old.place) }
        ensures read { result ≡ true → (limit at : ℕ) (ks : List TokenKind) (es : List Event)
            → IsRead limit ks es self.old → at ≡ length ks
            → IsRead limit (ks ++ kinds.Open ∷ []) (es ++ kept_as None at kinds.Open) self.new }
        ensures stays { result ≡ false → self.new ≡ self.old }
    {
        if is_free(self.place) && takes_open(self.frame) {
            self.place = Place::OpenDone;
            return true;
        }
        if let Some(place) = opened_part(self.place) {
            self.place = place;
            return true;
        }
        false
    }

    /// A token that the place itself takes, whatever is open; and as what it is kept.
    #[inline(always)]
    pub fn take_part(&mut self, kind: Kind) -> Option<Option<Role>>
        ensures exact { result ≡ kept_on (find (place_rows self.old.place) kind) }
        ensures read { IfSome result (λ role. (limit at : ℕ) (ks : List TokenKind) (es : List Event)
            → IsRead limit ks es self.old → at ≡ length ks
            → IsRead limit (ks ++ kind ∷ []) (es ++ kept_as role at kind) self.new) }
        ensures stays { result ≡ None → self.new ≡ self.old }
    {
        let Some(action) = place_step(self.place, kind) else {
            return None;
        };
        let Move::On(place) = action.go else {
            return None;
        };
        self.place = place;
        Some(action.keep)
    }

    /// The parenthesis that ends the operands of an instruction in front of them.
    #[inline(always)]
    pub fn take_held_end(&mut self) -> bool
        ensures exact { result ≡ is_free self.old.place && is_held self.old.frame }
        ensures read { result ≡ true → (limit at : ℕ) (ks : List TokenKind) (es : List Event)
            → IsRead limit ks es self.old → at ≡ length ks
            → IsRead limit (ks ++ kinds.Close ∷ []) (es ++ kept_as (Some roles.HeldEnd) at kinds.Close) self.new }
        ensures stays { result ≡ false → self.new ≡ self.old }
    {
        if is_free(self.place) && is_held(self.frame) {
            self.leave(Place::Done);
            return true;
        }
        false
    }

    /// The number or the identifier of an index.
    #[inline(always)]
    pub fn take_index(&mut self, kind: Kind) -> bool
        ensures exact { result ≡ is_some (behind_index self.old.place kind) }
        ensures read { result ≡ true → (limit at : ℕ) (ks : List TokenKind) (es : List Event)
            → IsRead limit ks es self.old → at ≡ length ks
            → IsRead limit (ks ++ kind ∷ []) (es ++ kept_as (Some roles.Index) at kind) self.new }
        ensures stays { result ≡ false → self.new ≡ self.old }
    {
        let Some(place) = behind_index(self.place, kind) else {
            return false;
        };
        self.place = place;
        true
    }

    /// The number of a constant, of 32 bits.
    #[inline(always)]
    pub fn take_literal(&mut self, kind: Kind) -> bool
        ensures exact { result ≡ is_literal self.old.place kind }
        ensures read { result ≡ true → (limit at : ℕ) (ks : List TokenKind) (es : List Event)
            → IsRead limit ks es self.old → at ≡ length ks
            → IsRead limit (ks ++ kind ∷ []) (es ++ kept_as (Some roles.Literal) at kind) self.new }
        ensures stays { result ≡ false → self.new ≡ self.old }
    {
        if is_literal(self.place, kind) {
            self.place = Place::Done;
            return true;
        }
        false
    }

    /// The offset of a load or a store.
    #[inline(always)]
    pub fn take_offset(&mut self, kind: Kind) -> bool
        ensures exact { result ≡ is_offset self.old.place kind }
        ensures read { result ≡ true → (limit at : ℕ) (ks : List TokenKind) (es : List Event)
            → IsRead limit ks es self.old → at ≡ length ks
            → IsRead limit (ks ++ kind ∷ []) (es ++ kept_as (Some roles.MemOffset) at kind) self.new }
        ensures stays { result ≡ false → self.new ≡ self.old }
    {
        if is_offset(self.place, kind) {
            self.place = Place::MemAlign;
            return true;
        }
        false
    }

    /// The alignment of a load or a store.
    #[inline(always)]
    pub fn take_align(&mut self, kind: Kind) -> bool
        ensures exact { result ≡ is_align self.old.place kind }
        ensures read { result ≡ true → (limit at : ℕ) (ks : List TokenKind) (es : List Event)
            → IsRead limit ks es self.old → at ≡ length ks
            → IsRead limit (ks ++ kind ∷ []) (es ++ kept_as (Some roles.MemAlign) at kind) self.new }
        ensures stays { result ≡ false → self.new ≡ self.old }
    {
        if is_align(self.place, kind) {
            self.place = Place::Done;
            return true;
        }
        false
    }
}
