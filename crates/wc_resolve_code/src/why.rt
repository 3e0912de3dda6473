//! Why names are refused.

/// What is wrong with the names of a text. With each reason stands the token at which it is told.
#[derive(Clone, Copy, Debug, PartialEq, Eq)]
pub enum NameWhy {
    /// Nothing in its index space has this identifier (Core 1.0, 6.6.1), or no block around it has this label (6.5.1):
    /// at the identifier.
    UnknownId,
    /// One before it in its index space has this identifier (6.1.3): at the later identifier. Parameters and locals of
    /// a function are one space.
    DuplicateId,
    /// An import, inline too, stands behind a function, a table, a memory or a global that is none (6.6.13): at the
    /// word `import`.
    LateImport,
    /// Parameters or results are written behind `(type x)` that aren't those of type x (6.6.3): at the index x.
    TypeDiffers,
    /// There is one start function already (6.6.13): at the second word `start`.
    SecondStart,
    /// The identifier behind `else` or `end` isn't the label of its block (6.5.2): at that identifier.
    LabelDiffers,
    /// No type has the index x of `(type x)` (6.6.3): at that number.
    NoSuchType,
    /// A parameter of a `call_indirect` has an identifier (6.5.2): at the identifier.
    NamedParam,
    /// More locals are declared than a function may have: at the type of the first one too many.
    TooManyLocals,
    /// A parameter of a block, a loop or an if has an identifier (Core 2.0, 6.5.2): at the identifier.
    BlockParam,
}
