//! What is known around a body.

use wc_spaces::Space;

/// What is known around a body. A contract speaks of the `Context` that it holds. Each part is lent for a time of its
/// own: identifiers for as long as the text, the spaces of the module, those of the function, and the uses.
#[derive(Clone, Copy)]
pub struct Around<'text, 'module, 'function, 'uses> {
    /// The functions, imported ones first.
    pub funcs: &'module Space<'text>,
    /// The globals, imported ones first.
    pub globals: &'module Space<'text>,
    /// The parameters of the function, and behind them its locals.
    pub locals: &'function Space<'text>,
    /// Of each type use of the body the index of its type.
    pub uses: &'uses [u32],
}
