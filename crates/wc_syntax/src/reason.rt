//! Why a token is refused.

ghost use Rattle.std.specs.Prelude.{◌≡◌};
ghost use Rattle.wc_syntax.specs.Standard.Reasons.{wrong};
ghost use Rattle.wc_syntax.specs.Tables.Table.{leads_to, reason_of};
ghost use Rattle.wc_syntax.specs.Standard.Instead.{terminal_or_mark, wrongs};

use crate::kind::Kind;
use crate::place::{Action, Frame, Move, Place};
use crate::table::{names_instr, step};
use crate::why::SynWhy;

/// A reason, and the kind of token whose standing there gives it; `None` for the name of any instruction.
#[derive(Clone, Copy)]
struct Instead {
    why: SynWhy,
    other: Option<Kind>,
}

/// Where a token of the kind leads, or where the name of any instruction does.
fn leads_to(place: Place, frame: Frame, deep: bool, other: Option<Kind>) -> Option<Action>
    ensures { result ≡ leads_to place frame deep (terminal_or_mark other) }
{
    match other {
        Some(kind) => step(place, frame, deep, kind),
        None => {
            if names_instr(place, frame) {
                Some(Action {
                    keep: None,
                    go: Move::Past(Place::Done),
                })
            } else {
                None
            }
        }
    }
}

/// What a token of the kind may be wrong for.
fn wrong(kind: Kind) -> &'static [Instead]
    ensures { wrongs result.now ≡ wrong kind }
{
    match kind {
        Kind::Open | Kind::Close | Kind::Id | Kind::Name => &[],
        Kind::Text => &[Instead {
            why: SynWhy::NameNotUtf8,
            other: Some(Kind::Name),
        }],
        Kind::Natural64 | Kind::Natural => &[
            Instead {
                why: SynWhy::Range,
                other: Some(Kind::Natural32),
            },
            Instead {
                why: SynWhy::NoInstruction,
                other: None,
            },
        ],
        Kind::Signed64 | Kind::Signed => &[
            Instead {
                why: SynWhy::Range,
                other: Some(Kind::Signed32),
            },
            Instead {
                why: SynWhy::NoInstruction,
                other: None,
            },
        ],
        Kind::MemOffsetRange => &[
            Instead {
                why: SynWhy::Range,
                other: Some(Kind::MemOffset),
            },
            Instead {
                why: SynWhy::NoInstruction,
                other: None,
            },
        ],
        Kind::MemOffsetForm => &[
            Instead {
                why: SynWhy::Unexpected,
                other: Some(Kind::MemOffset),
            },
            Instead {
                why: SynWhy::NoInstruction,
                other: None,
            },
        ],
        Kind::MemAlignRange => &[
            Instead {
                why: SynWhy::Range,
                other: Some(Kind::MemAlign),
            },
            Instead {
                why: SynWhy::NoInstruction,
                other: None,
            },
        ],
        Kind::MemAlignPower => &[
            Instead {
                why: SynWhy::Align,
                other: Some(Kind::MemAlign),
            },
            Instead {
                why: SynWhy::NoInstruction,
                other: None,
            },
        ],
        Kind::MemAlignForm => &[
            Instead {
                why: SynWhy::Unexpected,
                other: Some(Kind::MemAlign),
            },
            Instead {
                why: SynWhy::NoInstruction,
                other: None,
            },
        ],
        Kind::FloatType => &[
            Instead {
                why: SynWhy::Float,
                other: Some(Kind::ValType),
            },
            Instead {
                why: SynWhy::NoInstruction,
                other: None,
            },
        ],
        Kind::FloatName => &[Instead {
            why: SynWhy::Float,
            other: None,
        }],
        Kind::Simple
        | Kind::Indexed
        | Kind::BrTable
        | Kind::CallIndirect
        | Kind::Access
        | Kind::Const32
        | Kind::Const64
        | Kind::Region
        | Kind::If => &[Instead {
            why: SynWhy::Depth,
            other: None,
        }],
        _ => &[Instead {
            why: SynWhy::NoInstruction,
            other: None,
        }],
    }
}

/// Why a token of the kind is refused there.
#[cold]
#[inline(never)]
pub fn reason_of(place: Place, frame: Frame, deep: bool, kind: Kind) -> SynWhy
    ensures { result ≡ reason_of place frame deep kind }
{
    for instead in wrong(kind) {
        if let Some(_) = leads_to(place, frame, deep, instead.other) {
            return instead.why;
        }
    }
    SynWhy::Unexpected
}
