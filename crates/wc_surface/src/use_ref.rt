//! Type uses where they are kept.

ghost use Rattle.std.specs.Prelude.{◌≡◌};
ghost use Rattle.wc_surface.specs.Standard.Keys.{key_of};

use crate::id::Index;
use crate::signature::Signature;
use crate::type_use::{ParamName, TypeUse, User};
use std::marker::Model;

/// A type use (Core 1.0, 6.6.3), where it is kept. A contract sees the type use.
#[derive(Drop)]
pub struct UseRef<'a> {
    pub(crate) user: User,
    pub(crate) token: u32,
    pub(crate) index: Option<Index<'a>>,
    pub(crate) signature: &'a Signature,
    pub(crate) names: &'a [ParamName<'a>],
}

impl<'a> Model for UseRef<'a> {
    ghost use Rattle.wc_surface.specs.declared.type_use.TypeUse.{TypeUse};

    ghost Value = { TypeUse };

    ghost use Rattle.wc_surface.specs.Kept.Uses.{use_with};

    ghost view = { λ it. use_with it.user it.token it.index it.signature.now it.names.now };
}

impl<'a> UseRef<'a> {
    /// This type use. It takes no memory.
    pub fn of(used: &'a TypeUse<'_>) -> UseRef<'a>
        ensures { result ≡ used.now }
    {
        UseRef {
            user: used.user,
            token: used.token,
            index: index_again(&used.index),
            signature: &used.signature,
            names: used.names.as_slice(),
        }
    }

    /// What it is of.
    #[inline(always)]
    pub fn user(&self) -> User
        ensures { result ≡ self.now.user }
    {
        self.user
    }

    /// The number of the word that it is of.
    #[inline(always)]
    pub fn token(&self) -> u32
        ensures { result ≡ self.now.token }
    {
        self.token
    }

    /// The type behind `type`.
    #[inline(always)]
    pub fn index(&self) -> &Option<Index<'a>>
        ensures { result.now ≡ self.now.index }
    {
        &self.index
    }

    /// The key of the parameters and results that are written.
    #[inline(always)]
    pub fn key(&self) -> &'a [u8]
        ensures { result.now ≡ key_of self.now.signature }
    {
        self.signature.key()
    }

    /// The identifiers of parameters, in the order of the parameters.
    #[inline(always)]
    pub fn names(&self) -> &'a [ParamName<'a>]
        ensures { result.now ≡ self.now.names }
    {
        self.names
    }
}

/// The same index, if any.
pub(crate) fn index_again<'a>(index: &Option<Index<'a>>) -> Option<Index<'a>>
    ensures { result ≡ index.now }
{
    match index {
        None => None,
        Some(index) => Some(index.again()),
    }
}
