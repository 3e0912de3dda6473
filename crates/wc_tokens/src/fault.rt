//! Why a text has no tokens.

ghost use Rattle.std.specs.Prelude.{◌≡◌};
ghost use Rattle.wc_tokens.specs.declared.fault.LexFault.TheVariants.{Memory};

use std::alloc::{AllocError, AllocFailed};

/// Why a text is not made of gaps and tokens. The place of each is a byte.
#[derive(Clone, Copy, Debug, PartialEq, Eq)]
pub enum LexWhy {
    /// The text is not UTF-8: the first byte of the bad sequence, where the longest front that is UTF-8 ends.
    NotUtf8,
    /// No gap and no token begins with this character, as with a lone `;`.
    Character,
    /// A block comment is not closed: where the outermost open one begins.
    CommentOpen,
    /// The text ends inside a string: the opening quote.
    StringOpen,
    /// In a string, the backslash that begins no escape, or the character that may not stand there.
    Escape,
    /// The text has more than 4,294,967,295 bytes: the first byte that is too many.
    TooLong,
}

/// The first fault of a text.
#[derive(Clone, Copy, Debug, PartialEq, Eq)]
pub struct Stop {
    /// The byte, as `why` says.
    pub at: u64,
    /// The reason.
    pub why: LexWhy,
}

/// Why there are no tokens.
#[derive(Debug, Drop)]
pub enum LexFault {
    /// The first fault of the text: its length, else its encoding, else the first place where nothing whole
    /// begins.
    Bad {
        /// The byte, as `why` says.
        at: u64,
        /// The reason.
        why: LexWhy,
    },
    /// Memory was refused.
    Memory,
}

impl From<Stop> for LexFault {
    ghost use Rattle.std.specs.Prelude.{◌≡◌};
    ghost use Rattle.wc_tokens.specs.declared.fault.LexFault.TheVariants.{Bad};

    ghost from_gives = { λ stop e. e ≡ Bad stop.at stop.why };

    fn from(stop: Stop) -> LexFault {
        LexFault::Bad {
            at: stop.at,
            why: stop.why,
        }
    }
}

impl From<AllocError> for LexFault {
    ghost from_gives = { λ _ e. e ≡ Memory };

    fn from(_error: AllocError) -> LexFault {
        LexFault::Memory
    }
}

impl<T: Drop> From<AllocFailed<T>> for LexFault {
    ghost from_gives = { λ _ e. e ≡ Memory };

    fn from(_error: AllocFailed<T>) -> LexFault {
        LexFault::Memory
    }
}
