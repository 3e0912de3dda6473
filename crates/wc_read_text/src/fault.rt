//! Why a text denotes no module.

use wc_resolve_code::NameWhy;
use wc_syntax::SynWhy;
use wc_tokens::LexWhy;

/// Why a text denotes no module. A token is counted from 0, and a byte is its first one, counted from 0 in the whole
/// text.
#[derive(Debug, Drop)]
pub enum TextFault {
    /// The text isn't made of white space, comments and tokens (Core 1.0, 6.2 and 6.3), as `why` says of the byte `at`.
    Lex { at: u64, why: LexWhy },
    /// The first fault of the grammar (Core 1.0, 6.4 to 6.6): the first token such that no text, however deep, begins
    /// with the tokens up to and including it, or that names an instruction nested too deep. Where one more token has
    /// to follow, `token` is the number of tokens and `at` the length of the text.
    Syntax { token: u64, at: u64, why: SynWhy },
    /// The names of the text are wrong (Core 1.0, 6.6), as `why` says of this token.
    Names { token: u64, at: u64, why: NameWhy },
    /// A growth of memory was refused.
    Memory,
}
