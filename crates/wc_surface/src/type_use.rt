//! Type uses.

use crate::id::{Id, Index};
use crate::signature::Signature;
use wc_ast::List;

/// The identifier of a parameter, and which parameter it is of.
#[derive(Drop)]
pub struct ParamName<'a> {
    pub place: u32,
    pub id: Id<'a>,
}

/// What a type use is of: it may have no token of its own.
#[derive(Clone, Copy, PartialEq, Eq)]
pub enum User {
    /// A function field, or an import of a function.
    Func,
    /// A `call_indirect`.
    CallIndirect,
    /// A block, a loop or an if.
    Block,
}

/// A type use (Core 1.0, 6.6.3).
#[derive(Drop)]
pub struct TypeUse<'a> {
    /// What it is of.
    pub user: User,
    /// The number of the word that it is of. It rises along the uses of a body.
    pub token: u32,
    /// The type behind `type`.
    pub index: Option<Index<'a>>,
    /// The parameters and results that are written.
    pub signature: Signature,
    /// The identifiers of parameters, in the order of the parameters.
    pub names: List<ParamName<'a>>,
}
