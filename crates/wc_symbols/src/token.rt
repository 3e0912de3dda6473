//! What each token is.

ghost use Rattle.std.specs.Prelude.{◌≡◌};
ghost use Rattle.wc_tokens.specs.Standard.Lexemes.{HasForm};
ghost use Rattle.wc_symbols.specs.Standard.Ranges.{FitsKind};
ghost use Rattle.wc_symbols.specs.Standard.Tokens.{TokenIs};
ghost use Rattle.wc_symbols.specs.declared.symbol.Symbol.{Symbol as Meaning};

use crate::string::string;
use crate::symbol::{Symbol, bare};
use crate::word::word;
use wc_syntax::Kind;
use wc_tokens::{Token, TokenKind};

/// The kind and the value of a token (Core 1.0, 6.3, and 6.4 to 6.6 for the words). It is for a token whose text has
/// the form of its kind, as each one of `lex` has. It takes no memory.
#[inline(always)]
pub fn symbol_of(token: &Token<'_>) -> Symbol
    requires { HasForm token.now.kind token.now.text.now }
    ensures symbol { TokenIs token.now.kind token.now.text.now result }
    ensures range { FitsKind result.kind result.value }
    ensures only { (s : Meaning) → TokenIs token.now.kind token.now.text.now s → s ≡ result }
{
    match token.kind {
        TokenKind::Open => bare(Kind::Open),
        TokenKind::Close => bare(Kind::Close),
        TokenKind::Id => bare(Kind::Id),
        TokenKind::Str => string(token.text),
        TokenKind::Word => word(token.text),
    }
}
