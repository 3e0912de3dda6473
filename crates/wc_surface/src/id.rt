//! Identifiers and indices.

ghost use Rattle.std.specs.Prelude.{◌≡◌};
ghost use Rattle.wc_surface.specs.Standard.Identifiers.{identifier};

use std::marker::Model;

/// An identifier (Core 1.0, 6.3.5). A contract sees the number of its token and its bytes, the `$` among them.
#[derive(Drop)]
pub struct Id<'a> {
    number: u32,
    name: &'a str,
}

impl<'a> Model for Id<'a> {
    ghost use Rattle.wc_surface.specs.Standard.Identifiers.{Identifier, identifier};

    ghost Value = { Identifier };

    ghost view = { λ id. identifier id.number id.name.now };
}

impl<'a> Id<'a> {
    /// The identifier that is this text, at the token of this number. It takes no memory.
    #[inline(always)]
    pub fn new(token: u32, text: &'a str) -> Id<'a>
        ensures { result ≡ identifier token text.now }
    {
        Id {
            number: token,
            name: text,
        }
    }

    /// The number of its token.
    #[inline(always)]
    pub fn token(&self) -> u32
        ensures { result ≡ self.now.token }
    {
        self.number
    }

    /// Its text.
    #[inline(always)]
    pub fn text(&self) -> &'a str
        ensures { result.now ≡ self.now.text }
    {
        self.name
    }

    /// The same identifier. It takes no memory.
    #[inline(always)]
    pub fn again(&self) -> Id<'a>
        ensures { result ≡ self.now }
    {
        Id {
            number: self.number,
            name: self.name,
        }
    }
}

/// An index (Core 1.0, 6.6.1): a number, or the identifier of what it is of.
#[derive(Drop)]
pub enum Index<'a> {
    /// A number, at the token of this number.
    Number { token: u32, value: u32 },
    /// An identifier.
    Named(Id<'a>),
}

impl<'a> Index<'a> {
    /// The same index. It takes no memory.
    #[inline(always)]
    pub fn again(&self) -> Index<'a>
        ensures { result ≡ self.now }
    {
        match self {
            Index::Number { token, value } => Index::Number {
                token: *token,
                value: *value,
            },
            Index::Named(id) => Index::Named(id.again()),
        }
    }
}
