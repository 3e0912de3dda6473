//! A text read token by token.

mod parts;
mod usual;

ghost use Rattle.std.specs.Prelude.{◌≡◌, ◌++◌, ◌∷◌, [], ℕ, List, length, true, false, IfOk, IfErr, OnOk, OnErr};
ghost use Rattle.wc_syntax.specs.Standard.Deriving.{Event};
ghost use Rattle.wc_syntax.specs.Standard.Parsing.{IsText, IsRefusal};
ghost use Rattle.wc_syntax.specs.Standard.Reading.{IsRead, start, moved, is_deep, kept_as};
ghost use Rattle.wc_syntax.specs.Standard.Reasons.{FirstFault};
ghost use Rattle.wc_syntax.specs.declared.place.Move.TheVariants.{Out};
ghost use Rattle.wc_syntax.specs.declared.kind.Kind.{Kind as TokenKind};
ghost use Rattle.wc_syntax.specs.declared.why.SynWhy.TheVariants.{End};

use crate::kind::Kind;
use crate::place::{Frame, Move, Place};
use crate::reason::reason_of;
use crate::refusal::Refusal;
use crate::role::Role;
use crate::table::{is_end, resume, step};
use std::alloc::{AllocError, Global};
use std::marker::Model;

/// A text that is being read from left to right. A contract sees where the reader stands; `IsRead` says behind which
/// tokens that is, and which of them are kept.
#[derive(Drop)]
pub struct Reading {
    limit: usize,
    place: Place,
    frame: Frame,
    // Those around the innermost one, innermost last.
    outer: Vec<Frame>,
}

impl Model for Reading {
    ghost use Rattle.std.specs.Prelude.{reverse};
    ghost use Rattle.wc_syntax.specs.Standard.Reading.{Standing, standing};

    ghost Value = { Standing };

    ghost view = { λ reading. standing reading.limit reading.place reading.frame (reverse reading.outer.items) };
}

impl Reading {
    /// In front of the first token of a text in which at most `limit` instructions are nested in one another. It takes
    /// no memory.
    pub fn new(alloc: Global, limit: usize) -> Reading
        ensures { IsRead limit [] [] result }
    {
        Reading {
            limit,
            place: Place::Done,
            frame: Frame::Start,
            outer: Vec::new(alloc),
        }
    }

    /// Reads one more token, the one of this number and kind, and tells as what it is kept. The error is the first
    /// fault of every list of tokens that begins so, or want of memory; then the reader stands where it stood.
    #[inline(always)]
    pub fn take(&mut self, at: usize, kind: Kind) -> Result<Option<Role>, Refusal>
        ensures kept { (limit : ℕ) (ks : List TokenKind) (es : List Event) → IsRead limit ks es self.old
            → at ≡ length ks
            → IfOk result (λ role. IsRead limit (ks ++ kind ∷ []) (es ++ kept_as role at kind) self.new) }
        ensures refused { (limit : ℕ) (ks : List TokenKind) (es : List Event) → IsRead limit ks es self.old
            → at ≡ length ks
            → IfErr result (λ refusal. (more : List TokenKind) → IsRefusal limit (ks ++ kind ∷ more) refusal) }
        ensures err { OnErr result (self.new ≡ self.old) }
    {
        let deep = self.is_deep();
        let Some(action) = step(self.place, self.frame, deep, kind) else {
            let why = reason_of(self.place, self.frame, deep, kind);
            return Err(Refusal::Bad { token: at, why });
        };
        self.go(action.go)?;
        Ok(action.keep)
    }

    /// Whether all that was read is a text. If not, the fault is its end.
    pub fn is_text(&self) -> bool
        ensures text { (limit : ℕ) (ks : List TokenKind) (es : List Event) → IsRead limit ks es self.now
            → result ≡ true → IsText limit ks es }
        ensures fault { (limit : ℕ) (ks : List TokenKind) (es : List Event) → IsRead limit ks es self.now
            → result ≡ false → FirstFault limit ks (length ks) End }
    {
        is_end(self.place, self.frame)
    }

    #[inline(always)]
    fn is_deep(&self) -> bool
        ensures { result ≡ is_deep self.now }
    {
        // The text itself is the outermost frame.
        self.outer.len().saturating_sub(1) >= self.limit
    }

    /// Moves on. The error is want of memory.
    #[inline(always)]
    fn go(&mut self, to: Move) -> Result<(), AllocError>
        ensures ok { OnOk result (self.new ≡ moved to self.old) }
        ensures err { OnErr result (self.new ≡ self.old) }
    {
        match to {
            Move::On(place) => {
                self.place = place;
            }
            Move::Past(place) => {
                self.place = place;
                self.frame = resume(self.frame);
            }
            Move::Turn(place, frame) => {
                self.place = place;
                self.frame = frame;
            }
            Move::Into(place, frame) => {
                self.outer.reserve(1)?;
                self.outer.push_reserved(resume(self.frame));
                self.place = place;
                self.frame = frame;
            }
            Move::Out(place) => self.leave(place),
        }
        Ok(())
    }

    /// Moves out of the innermost frame.
    #[inline(always)]
    fn leave(&mut self, place: Place)
        ensures { self.new ≡ moved (Out place) self.old }
    {
        self.place = place;
        if let Some(around) = self.outer.pop() {
            self.frame = around;
        }
    }
}
