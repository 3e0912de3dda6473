//! Tokens.

/// What kind of token it is (Core 1.0, 6.3).
#[derive(Clone, Copy, Debug, PartialEq, Eq)]
pub enum TokenKind {
    /// An opening parenthesis.
    Open,
    /// A closing parenthesis.
    Close,
    /// An identifier: `$` and at least one idchar.
    Id,
    /// A string, with its quotes.
    Str,
    /// Any other run of idchars: a keyword, a number or a reserved word.
    Word,
}

/// A token of a text.
#[derive(Clone, Copy)]
pub struct Token<'a> {
    /// Its kind.
    pub kind: TokenKind,
    /// The text from `start` up to `stop`.
    pub text: &'a str,
    /// The byte at which it begins.
    pub start: usize,
    /// The byte behind its last one.
    pub stop: usize,
}
