//! What a check answers.

ghost use Rattle.std.specs.Prelude.{◌≡◌};
ghost use Rattle.wc_check.specs.Standard.Rules.{first, rule};
ghost use Rattle.wc_check.specs.Judging.Verdicts.{judged};

/// What a fault stands at. Functions, tables, memories and globals have their index in their index space, in which
/// imports come first (Core 1.0, 2.5.1). Others have their place in their list. All count from 0.
#[derive(Clone, Copy, Debug, PartialEq, Eq)]
pub enum Item {
    /// An import, by its place among all imports.
    Import(usize),
    /// A function that the module defines, by its index.
    Func(usize),
    /// An instruction of a function.
    Instr {
        /// The function's index.
        func: usize,
        /// Its place in reading order. A block counts once, where it begins; `else` and `end` don't count.
        number: usize,
    },
    /// A table that the module defines, by its index.
    Table(usize),
    /// A memory that the module defines, by its index.
    Memory(usize),
    /// A global that the module defines, by its index.
    Global(usize),
    /// An export, by its place.
    Export(usize),
    /// The start function.
    Start,
    /// An element segment, by its place.
    Elem(usize),
    /// A data segment, by its place.
    Data(usize),
}

/// A rule that an item breaks, in the order in which the rules of one item are judged.
#[derive(Clone, Copy, Debug, PartialEq, Eq)]
pub enum CheckWhy {
    /// The index of a type isn't below the number of types (Core 1.0, 3.4.1; of a block, Core 2.0, 3.2.2).
    TypeIndex,
    /// The least size is above the greatest, or one of a memory's is above 65,536 pages (Core 1.0, 3.2.1 and 3.2.4).
    Limits,
    /// There is a table or a memory before it (Core 1.0, 3.4.10).
    Several,
    /// A global's first value or a segment's offset isn't one constant instruction of the type that is wanted (Core
    /// 1.0, 3.3.7). A global's first value may read the constant globals that are imported, an offset any constant
    /// global.
    Constant,
    /// There is no local, global, function, table or memory of that index (Core 1.0, 3.3 and 3.4).
    Index,
    /// `global.set` of a constant global (Core 1.0, 3.3.3.5).
    Immutable,
    /// A label is above the number of enclosing blocks (Core 1.0, 3.3.5).
    Label,
    /// The alignment is above the width of the access (Core 1.0, 3.3.4).
    Align,
    /// An earlier export has the same name, whatever its kind (Core 1.0, 3.4.10).
    ExportName,
    /// The start function has parameters or results (Core 1.0, 3.4.7).
    StartType,
}

/// Why a module isn't accepted.
#[derive(Clone, Copy, Debug, PartialEq, Eq)]
pub enum CheckFault {
    /// The first item that breaks a rule, and the first rule that it breaks.
    Broken {
        /// The item.
        item: Item,
        /// The rule.
        why: CheckWhy,
    },
    /// Want of memory.
    Memory,
}

/// The rule, where it is broken.
pub(crate) fn broken_if(why: CheckWhy, is_broken: bool) -> Option<CheckWhy>
    ensures { result ≡ first (rule why is_broken) }
{
    if is_broken { Some(why) } else { None }
}

/// The answer where an item breaks this rule, or none.
pub(crate) fn judge(item: Item, why: Option<CheckWhy>) -> Result<(), CheckFault>
    ensures { result ≡ judged item why }
{
    match why {
        None => Ok(()),
        Some(why) => Err(CheckFault::Broken { item, why }),
    }
}
