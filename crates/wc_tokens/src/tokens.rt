//! The tokens of a text.

ghost use Rattle.std.specs.Prelude.{◌≡◌};
ghost use Rattle.wc_tokens.specs.Standard.Tokens.{lexemes_of, InOrder};

use crate::token::Token;
use std::marker::Model;

/// The tokens of a text, in their order. Each has the form of its kind, and the length of its span.
#[derive(Drop)]
pub struct Tokens<'a> {
    items: Vec<Token<'a>>,
}

impl<'a> Model for Tokens<'a> {
    ghost use Rattle.std.specs.Prelude.{List};
    ghost use Rattle.wc_tokens.specs.Standard.Lexemes.{Lexeme};

    ghost Value = { List Lexeme };

    ghost use Rattle.wc_tokens.specs.Standard.Tokens.{lexemes_of, InOrder};

    ghost view = { λ t. lexemes_of t.items.items };

    ghost invariant = { λ t. InOrder 0 (lexemes_of t.items.items) };
}

impl<'a> Tokens<'a> {
    /// Tokens whose spans lie in order.
    pub(crate) fn new(items: Vec<Token<'a>>) -> Self
        requires { InOrder 0 (lexemes_of items.items) }
        ensures { result ≡ lexemes_of items.entry.items }
    {
        Tokens { items }
    }

    /// Lends the tokens. It takes no memory.
    pub fn as_slice(&self) -> &[Token<'a>]
        ensures tokens { lexemes_of result.now ≡ self.now }
        ensures in_order { InOrder 0 self.now }
    {
        self.items.as_slice()
    }
}
