//! The most usual tokens of fields and of type uses, read without a look at the whole table.

ghost use Rattle.std.specs.Prelude.{◌≡◌, ◌++◌, ◌∷◌, [], ◌&&◌, ℕ, List, length, true, false, Some, None};
ghost use Rattle.std.specs.Prelude.{OnErr, IfOk, IfSome, is_some};
ghost use Rattle.wc_syntax.specs.Standard.Deriving.{Event};
ghost use Rattle.wc_syntax.specs.Standard.Reading.{IsRead, kept_as};
ghost use Rattle.wc_syntax.specs.Tables.Table.{is_in_frame, rest_of};
ghost use Rattle.wc_syntax.specs.Tables.Parts.{ends_field, behind_part, begun_part, opens_func, first_part};
ghost use Rattle.wc_syntax.specs.Tables.Parts.{opens_field, type_role, behind_type, is_type_index, is_between};
ghost use Rattle.wc_syntax.specs.declared.kind.Kind.{Kind as TokenKind};
ghost use Rattle.wc_syntax.specs.declared.kind.Kind.TheVariants as kinds;
ghost use Rattle.wc_syntax.specs.declared.role.Role.TheVariants as roles;

use crate::kind::Kind;
use crate::place::{Frame, Move, Place};
use crate::reading::Reading;
use crate::role::Role;
use crate::table::{Rest, rest_of};
use std::alloc::AllocError;

/// No part has to follow in front of the frame's rest.
#[inline(always)]
fn may_end(place: Place) -> bool
    ensures { result ≡ is_in_frame (rest_of place) }
{
    matches!(rest_of(place), Rest::InFrame)
}

/// A parenthesis may end a field in the frame.
#[inline(always)]
fn ends_field(frame: Frame) -> bool
    ensures { result ≡ ends_field frame }
{
    matches!(
        frame,
        Frame::Field
            | Frame::FuncStart
            | Frame::FuncHead
            | Frame::Func
            | Frame::ElemTail
            | Frame::Elements
            | Frame::Strings
    )
}

/// The place behind the parenthesis that ends a part.
#[inline(always)]
fn behind_part(place: Place) -> Option<Place>
    ensures { result ≡ behind_part place }
{
    match place {
        Place::UseEnd | Place::Param | Place::ParamEnd | Place::ParamTypes => Some(Place::Params),
        Place::ResultTypes => Some(Place::Results),
        Place::InlineExportEnd => Some(Place::Exports),
        Place::MutableEnd
        | Place::TableElements
        | Place::MemoryStrings
        | Place::ExportEnd
        | Place::Local
        | Place::LocalEnd
        | Place::LocalTypes => Some(Place::Done),
        _ => None,
    }
}

/// The place behind the word of a part of a type use.
#[inline(always)]
fn begun_part(place: Place, kind: Kind) -> Option<Place>
    ensures { result ≡ begun_part place kind }
{
    match (place, kind) {
        (Place::OpenUses, Kind::TypeWord) => Some(Place::UseIndex),
        (Place::OpenUses | Place::OpenParams, Kind::ParamWord) => Some(Place::Param),
        (Place::OpenUses | Place::OpenParams | Place::OpenResults, Kind::ResultWord) => {
            Some(Place::ResultTypes)
        }
        _ => None,
    }
}

/// Behind the parenthesis of a function's first part.
#[inline(always)]
fn opens_func(place: Place, frame: Frame) -> bool
    ensures { result ≡ opens_func place frame }
{
    matches!((place, frame), (Place::OpenExports, Frame::FuncStart))
}

/// The place behind the word of that part.
#[inline(always)]
fn first_part(kind: Kind) -> Option<Place>
    ensures { result ≡ first_part kind }
{
    match kind {
        Kind::TypeWord => Some(Place::UseIndex),
        Kind::ParamWord => Some(Place::Param),
        Kind::ResultWord => Some(Place::ResultTypes),
        Kind::LocalWord => Some(Place::Local),
        _ => None,
    }
}

/// Behind the parenthesis of a field.
#[inline(always)]
fn opens_field(place: Place, frame: Frame) -> bool
    ensures { result ≡ opens_field place frame }
{
    matches!(
        (place, frame),
        (
            Place::OpenDone,
            Frame::Start | Frame::Fields | Frame::Module,
        )
    )
}

/// What the type of a value is kept as at the place.
#[inline(always)]
fn type_role(place: Place) -> Option<Role>
    ensures { result ≡ type_role place }
{
    match place {
        Place::Param | Place::NamedParam | Place::ParamTypes => Some(Role::ParamType),
        Place::ResultTypes => Some(Role::ResultType),
        Place::Local | Place::NamedLocal | Place::LocalTypes => Some(Role::LocalType),
        _ => None,
    }
}

/// The place behind it.
#[inline(always)]
fn behind_type(place: Place) -> Place
    ensures { result ≡ behind_type place }
{
    match place {
        Place::Param => Place::ParamTypes,
        Place::NamedParam => Place::ParamEnd,
        Place::Local => Place::LocalTypes,
        Place::NamedLocal => Place::LocalEnd,
        _ => place,
    }
}

/// The number or the identifier of the type of a type use.
#[inline(always)]
fn is_type_index(place: Place, kind: Kind) -> bool
    ensures { result ≡ is_type_index place kind }
{
    matches!((place, kind), (Place::UseIndex, Kind::Natural32 | Kind::Id))
}

impl Reading {
    /// Whether it stands between fields: behind one, in a text or in its `(module`, where one more may begin.
    #[inline(always)]
    pub fn is_between(&self) -> bool
        ensures { result ≡ is_between self.now.place self.now.frame }
    {
        matches!(
            (self.place, self.frame),
            (Place::Done, Frame::Fields | Frame::Module)
        )
    }
}

/// Each of these reads one more token where it has its most usual place, and tells whether it does. Else the reader
/// stands where it stood, and `take` is for the token.
impl Reading {
    /// The parenthesis that ends a part of a field or of a type use.
    #[inline(always)]
    pub fn take_part_end(&mut self) -> bool
        ensures exact { result ≡ is_some (behind_part self.old.place) }
        ensures read { result ≡ true → (limit at : ℕ) (ks : List TokenKind) (es : List Event)
            → IsRead limit ks es self.old → at ≡ length ks
            → IsRead limit (ks ++ kinds.Close ∷ []) (es ++ kept_as None at kinds.Close) self.new }
        ensures stays { result ≡ false → self.new ≡ self.old }
    {
        let Some(place) = behind_part(self.place) else {
            return false;
        };
        self.place = place;
        true
    }

    /// The parenthesis that ends a field.
    #[inline(always)]
    pub fn take_field_end(&mut self) -> bool
        ensures exact { result ≡ is_in_frame (rest_of self.old.place) && ends_field self.old.frame }
        ensures read { result ≡ true → (limit at : ℕ) (ks : List TokenKind) (es : List Event)
            → IsRead limit ks es self.old → at ≡ length ks
            → IsRead limit (ks ++ kinds.Close ∷ []) (es ++ kept_as (Some roles.FieldEnd) at kinds.Close) self.new }
        ensures stays { result ≡ false → self.new ≡ self.old }
    {
        if may_end(self.place) && ends_field(self.frame) {
            self.leave(Place::Done);
            return true;
        }
        false
    }

    /// The word of a part of a type use.
    #[inline(always)]
    pub fn take_part_word(&mut self, kind: Kind) -> bool
        ensures exact { result ≡ is_some (begun_part self.old.place kind) }
        ensures read { result ≡ true → (limit at : ℕ) (ks : List TokenKind) (es : List Event)
            → IsRead limit ks es self.old → at ≡ length ks
            → IsRead limit (ks ++ kind ∷ []) (es ++ kept_as None at kind) self.new }
        ensures stays { result ≡ false → self.new ≡ self.old }
    {
        let Some(place) = begun_part(self.place, kind) else {
            return false;
        };
        self.place = place;
        true
    }

    /// The word of a function's first part.
    #[inline(always)]
    pub fn take_first_word(&mut self, kind: Kind) -> bool
        ensures exact { result ≡ is_some (first_part kind) && opens_func self.old.place self.old.frame }
        ensures read { result ≡ true → (limit at : ℕ) (ks : List TokenKind) (es : List Event)
            → IsRead limit ks es self.old → at ≡ length ks
            → IsRead limit (ks ++ kind ∷ []) (es ++ kept_as None at kind) self.new }
        ensures stays { result ≡ false → self.new ≡ self.old }
    {
        let Some(place) = first_part(kind) else {
            return false;
        };
        if opens_func(self.place, self.frame) {
            self.place = place;
            self.frame = Frame::FuncHead;
            return true;
        }
        false
    }

    /// The word of a function, a field of its own. The error is want of memory, and then the reader stands where it
    /// stood.
    #[inline(always)]
    pub fn take_func(&mut self) -> Result<bool, AllocError>
        ensures exact { IfOk result (λ found. found ≡ opens_field self.old.place self.old.frame) }
        ensures read { IfOk result (λ found. found ≡ true → (limit at : ℕ) (ks : List TokenKind) (es : List Event)
            → IsRead limit ks es self.old → at ≡ length ks
            → IsRead limit (ks ++ kinds.FuncWord ∷ []) (es ++ kept_as (Some roles.Field) at kinds.FuncWord) self.new) }
        ensures stays { IfOk result (λ found. found ≡ false → self.new ≡ self.old) }
        ensures err { OnErr result (self.new ≡ self.old) }
    {
        if opens_field(self.place, self.frame) {
            self.go(Move::Into(Place::ExportedId, Frame::FuncStart))?;
            return Ok(true);
        }
        Ok(false)
    }

    /// The type of a parameter, a result or a local, and as what it is kept.
    #[inline(always)]
    pub fn take_type(&mut self) -> Option<Role>
        ensures exact { result ≡ type_role self.old.place }
        ensures read { IfSome result (λ role. (limit at : ℕ) (ks : List TokenKind) (es : List Event)
            → IsRead limit ks es self.old → at ≡ length ks
            → IsRead limit (ks ++ kinds.ValType ∷ []) (es ++ kept_as (Some role) at kinds.ValType) self.new) }
        ensures stays { result ≡ None → self.new ≡ self.old }
    {
        let Some(role) = type_role(self.place) else {
            return None;
        };
        self.place = behind_type(self.place);
        Some(role)
    }

    /// The number or the identifier of the type of a type use.
    #[inline(always)]
    pub fn take_type_index(&mut self, kind: Kind) -> bool
        ensures exact { result ≡ is_type_index self.old.place kind }
        ensures read { result ≡ true → (limit at : ℕ) (ks : List TokenKind) (es : List Event)
            → IsRead limit ks es self.old → at ≡ length ks
            → IsRead limit (ks ++ kind ∷ []) (es ++ kept_as (Some roles.TypeIndex) at kind) self.new }
        ensures stays { result ≡ false → self.new ≡ self.old }
    {
        if is_type_index(self.place, kind) {
            self.place = Place::UseEnd;
            return true;
        }
        false
    }
}
