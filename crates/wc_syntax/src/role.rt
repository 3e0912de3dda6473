//! What a kept token is to the value of a text.

/// What a kept token is to the fields of a text. Parentheses and words that only say what follows are not kept.
#[derive(Clone, Copy, Debug, PartialEq, Eq)]
pub enum Role {
    /// The word of a field, which says what it is.
    Field,
    /// The parenthesis that ends a field.
    FieldEnd,
    /// The identifier of a field, or of what an import brings.
    FieldId,
    /// The name of an export, inline too.
    ExportName,
    /// The word of an inline import.
    ImportWord,
    /// The name of the module that an import asks.
    ModuleName,
    /// The name of what it asks for.
    ItemName,
    /// What an import brings or an export lends: `func`, `table`, `memory` or `global`.
    Description,
    /// The type of a type use.
    TypeIndex,
    /// The identifier of the parameter that follows.
    ParamId,
    /// The type of a parameter.
    ParamType,
    /// The type of a result.
    ResultType,
    /// The identifier of the local that follows.
    LocalId,
    /// The type of a local.
    LocalType,
    /// The least size of a table or a memory.
    LimitsMin,
    /// Its greatest size.
    LimitsMax,
    /// The word `mut` of a global's type.
    Mutable,
    /// The type of a global's value.
    GlobalType,
    /// The word of a segment inside its table or memory: `elem` or `data`.
    Segment,
    /// What an export or a start is of, and the table or the memory of a segment.
    Target,
    /// A function in an element segment.
    Element,
    /// A string of a data segment.
    Bytes,
    /// The name of an instruction in which none is nested.
    Plain,
    /// The same in front of its operands, behind which it belongs.
    HeldPlain,
    /// The parenthesis that ends those operands.
    HeldEnd,
    /// `block`, `loop` or `if`.
    Begin,
    /// An `if` in front of its condition, behind which it belongs.
    HeldBegin,
    /// The `then` that ends the condition.
    Then,
    /// `else`.
    Else,
    /// The `end` of a block, or the parenthesis that ends it.
    End,
    /// The identifier of a block's label.
    Label,
    /// The identifier behind `else` or `end`.
    EndLabel,
    /// An index that an instruction names.
    Index,
    /// The offset of a load or a store.
    MemOffset,
    /// Its alignment.
    MemAlign,
    /// The number of a constant.
    Literal,
}
