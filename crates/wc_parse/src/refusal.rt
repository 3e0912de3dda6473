//! Why a text says no fields.

use wc_syntax::SynWhy;
use wc_tokens::Stop;

/// Why a text says no fields.
#[derive(Debug, Drop)]
pub enum TextRefusal {
    /// The first fault of its characters (Core 1.0, 6.2 and 6.3).
    Lex(Stop),
    /// It has tokens, and this is the first fault of its grammar (Core 1.0, 6.4 to 6.6).
    Syntax {
        /// Its token, or the number of tokens where one is missing.
        token: u64,
        /// The reason.
        why: SynWhy,
    },
    /// Memory was refused.
    Memory,
}

impl From<Stop> for TextRefusal {
    ghost use Rattle.std.specs.Prelude.{◌≡◌};
    ghost use Rattle.wc_parse.specs.declared.refusal.TextRefusal.TheVariants.{Lex};

    ghost from_gives = { λ stop e. e ≡ Lex stop };

    fn from(stop: Stop) -> TextRefusal {
        TextRefusal::Lex(stop)
    }
}
