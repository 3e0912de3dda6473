//! Why a token may not stand.

/// Why a token may not stand, or one more has to. Where several reasons fit one token, the first of them in this order
/// counts, but `Unexpected`, which is for what fits none.
#[derive(Clone, Copy, Debug, PartialEq, Eq)]
pub enum SynWhy {
    /// Every case that is none below.
    Unexpected,
    /// No token is left, and the text is not complete.
    End,
    /// A number of the form that may stand there, also behind `offset=` or `align=`, is out of range.
    Range,
    /// The number behind `align=` is no power of two.
    Align,
    /// `f32` or `f64` where a value type may stand, or the name of a float instruction where an instruction may stand.
    Float,
    /// Any other word where the name of an instruction may stand.
    NoInstruction,
    /// The name of an instruction that would be nested too deep.
    Depth,
    /// A string that is not UTF-8, where a name may stand.
    NameNotUtf8,
}
