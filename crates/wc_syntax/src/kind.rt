//! What the grammar asks of a token.

/// The kind of a token: all that the grammar asks of it (Core 1.0, 6.3). Every token has exactly one.
#[derive(Clone, Copy, Debug, PartialEq, Eq)]
pub enum Kind {
    /// An opening parenthesis.
    Open,
    /// A closing parenthesis.
    Close,
    /// An identifier.
    Id,
    /// A natural number below 2^32.
    Natural32,
    /// A natural number from 2^32 on, below 2^64.
    Natural64,
    /// A natural number from 2^64 on.
    Natural,
    /// A number behind a sign, from -2^31 to 2^31 - 1.
    Signed32,
    /// Any other number behind a sign, from -2^63 to 2^63 - 1.
    Signed64,
    /// Any other number behind a sign.
    Signed,
    /// A string whose bytes are UTF-8.
    Name,
    /// Any other string.
    Text,
    /// `offset=` and a natural number below 2^32, in one word.
    MemOffset,
    /// `offset=` and a natural number from 2^32 on.
    MemOffsetRange,
    /// `offset=` and anything else.
    MemOffsetForm,
    /// `align=` and a power of two below 2^32, in one word.
    MemAlign,
    /// `align=` and any other natural number below 2^32.
    MemAlignPower,
    /// `align=` and a natural number from 2^32 on.
    MemAlignRange,
    /// `align=` and anything else.
    MemAlignForm,
    /// The name of an instruction with no immediate.
    Simple,
    /// The name of an instruction whose immediate is one index.
    Indexed,
    /// `br_table`.
    BrTable,
    /// `call_indirect`.
    CallIndirect,
    /// The name of a load or a store.
    Access,
    /// `i32.const`.
    Const32,
    /// `i64.const`.
    Const64,
    /// `block` or `loop`.
    Region,
    /// `if`.
    If,
    /// `then`.
    ThenWord,
    /// `else`.
    ElseWord,
    /// `end`.
    EndWord,
    /// `module`.
    ModuleWord,
    /// `type`.
    TypeWord,
    /// `import`.
    ImportWord,
    /// `func`.
    FuncWord,
    /// `table`.
    TableWord,
    /// `memory`.
    MemoryWord,
    /// `global`.
    GlobalWord,
    /// `export`.
    ExportWord,
    /// `start`.
    StartWord,
    /// `elem`.
    ElemWord,
    /// `data`.
    DataWord,
    /// `offset`.
    OffsetWord,
    /// `local`.
    LocalWord,
    /// `param`.
    ParamWord,
    /// `result`.
    ResultWord,
    /// `mut`.
    MutWord,
    /// `funcref`.
    FuncrefWord,
    /// `i32` or `i64`.
    ValType,
    /// `f32` or `f64`.
    FloatType,
    /// What is taken for the name of a float instruction.
    FloatName,
    /// Any other word.
    OtherWord,
}
