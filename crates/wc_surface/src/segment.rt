//! Element and data segments.

use crate::id::Index;
use crate::kept_body::KeptBody;
use crate::rare::Rare;
use wc_ast::List;

/// An element segment (Core 1.0, 6.6.11).
#[derive(Drop)]
pub struct ElemField<'a> {
    /// Its table, where one is named.
    pub table: Rare<Index<'a>>,
    pub offset: KeptBody<'a>,
    pub funcs: List<Index<'a>>,
}

/// A data segment (Core 1.0, 6.6.12).
#[derive(Drop)]
pub struct DataField<'a> {
    /// Its memory, where one is named.
    pub memory: Rare<Index<'a>>,
    pub offset: KeptBody<'a>,
    /// What its strings stand for, one behind the other.
    pub bytes: List<u8>,
}
