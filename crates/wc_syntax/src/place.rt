//! Where the parser stands.

use crate::role::Role;

/// What may still come in front of the rest of the innermost frame. An `Open..` stands behind an opening parenthesis.
#[derive(Clone, Copy, PartialEq, Eq)]
pub enum Place {
    /// Nothing: the frame's rest comes.
    Done,
    /// The same behind a parenthesis.
    OpenDone,
    // ---- type uses
    Uses,
    OpenUses,
    UseIndex,
    UseEnd,
    Params,
    OpenParams,
    Param,
    NamedParam,
    ParamEnd,
    ParamTypes,
    Results,
    OpenResults,
    ResultTypes,
    // ---- instructions
    Label,
    EndLabel,
    Index,
    FirstIndex,
    Indices,
    MemOffset,
    MemAlign,
    Literal32,
    Literal64,
    // ---- a text and its fields
    ModuleId,
    ExportedId,
    Exports,
    OpenExports,
    InlineExportName,
    InlineExportEnd,
    TypeId,
    TypeFunc,
    OpenTypeFunc,
    ModuleName,
    ItemName,
    FuncId,
    TableId,
    MemoryId,
    GlobalId,
    TableMin,
    TableMax,
    Funcref,
    Min,
    Max,
    GlobalType,
    OpenGlobalType,
    MutableType,
    MutableEnd,
    TableElem,
    OpenTableElem,
    TableElements,
    MemoryStrings,
    ExportName,
    ExportDescription,
    OpenExportDescription,
    ExportIndex,
    ExportEnd,
    StartIndex,
    SegmentIndex,
    Local,
    NamedLocal,
    LocalEnd,
    LocalTypes,
}

/// What is open, and what of it is left.
#[derive(Clone, Copy, PartialEq, Eq)]
pub enum Frame {
    /// The text's begin, its fields, and those inside of `(module`, and what is behind that.
    Start,
    Fields,
    Module,
    Closed,
    /// A field of which the parenthesis is left; and one of which two are.
    Field,
    Described,
    /// An import field behind its names.
    Import,
    /// A func field behind its exports; behind the names of its import; in front of its locals; behind them.
    FuncStart,
    FuncImport,
    FuncHead,
    Func,
    TableStart,
    TableImport,
    MemoryStart,
    MemoryImport,
    GlobalStart,
    GlobalImport,
    /// An element segment in front of its offset, in it, behind it, behind `func`.
    Elem,
    ElemOffset,
    ElemTail,
    Elements,
    /// A data segment in front of its offset, in it, behind it.
    Data,
    DataOffset,
    Strings,
    /// A plain block, or an `if` in its last part.
    Region,
    /// A plain `if` in its first part.
    First,
    FoldedRegion,
    /// An instruction in front of its operands.
    Held,
    /// A folded `if`: in front of its condition, in its first part, behind it, in its last part, behind that.
    Asked,
    Then,
    Chosen,
    Else,
    Settled,
}

/// Where a token leads.
#[derive(Clone, Copy, PartialEq, Eq)]
pub enum Move {
    /// In the same frame.
    On(Place),
    /// The same, where an instruction stands now.
    Past(Place),
    /// The frame goes over into another one.
    Turn(Place, Frame),
    /// One more is open.
    Into(Place, Frame),
    /// One less is open.
    Out(Place),
}

/// What a token does: whether it is kept, and where it leads.
#[derive(Clone, Copy, PartialEq, Eq)]
pub struct Action {
    pub keep: Option<Role>,
    pub go: Move,
}
