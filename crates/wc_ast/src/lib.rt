//! The abstract module of WebAssembly: its types, its parts and their copies, with the instructions and the opcodes
//! of the crates below.
#![tactic(auto)]

pub mod code_ref;
pub mod codes;
pub mod export;
pub mod export_ref;
pub mod exports;
pub mod func;
pub mod func_ref;
pub mod func_type;
pub mod funcs;
pub mod import;
pub mod import_ref;
pub mod imports;
pub mod limits;
pub mod list;
pub mod locals;
pub mod locals_law;
pub mod locals_ref;
pub mod module;
pub mod name;
pub mod names;
pub mod segment;
pub mod sizes;

pub use crate::code_ref::{CodeRef, CodeRefs};
pub use crate::codes::{Codes, FuncCode};
pub use crate::export::{Export, ExportKind};
pub use crate::export_ref::{ExportRef, ExportRefs};
pub use crate::exports::Exports;
pub use crate::func::{Func, Global};
pub use crate::func_ref::{FuncRef, FuncRefs};
pub use crate::func_type::FuncType;
pub use crate::funcs::Funcs;
pub use crate::import::{Desc, Import};
pub use crate::import_ref::{ImportRef, ImportRefs};
pub use crate::imports::Imports;
pub use crate::limits::{GlobalType, Limits};
pub use crate::list::List;
pub use crate::locals::{Group, LOCALS_LIMIT, Locals, LocalsFault};
pub use crate::locals_law::one_grouping;
pub use crate::locals_ref::LocalsRef;
pub use crate::module::Module;
pub use crate::name::Name;
pub use crate::segment::{Data, Elem};
pub use wc_body::{
    BlockType, Body, BodyBuilder, BodyRef, Bounded, Brief, BuildFault, Constant, Entries, Entry,
    Instr, Kind, Labels, MemArg, NESTING_LIMIT, Needs, Numbered, OwnNeeds, Short, TryClone,
    entries_tell_bodies,
};
pub use wc_ops::{
    IndexOp, MemOp, Op, OpByte, OpName, SimpleOp, ValType, leads_back, one_meaning, rows_differ,
};
