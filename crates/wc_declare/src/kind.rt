//! The kinds of index spaces.

/// The index spaces of a module (Core 1.0, 6.6.1).
#[derive(Clone, Copy, Debug, PartialEq, Eq)]
pub enum SpaceKind {
    Type,
    Func,
    Table,
    Memory,
    Global,
}
