//! The fields of a text, other than segments.

use crate::head::TextBody;
use crate::id::{Id, Index};
use crate::kept_body::KeptBody;
use crate::kept_func::KeptFunc;
use crate::local::TextLocals;
use crate::rare::{Apart, Rare, RareList};
use crate::segment::{DataField, ElemField};
use crate::signature::Signature;
use crate::text_name::TextName;
use crate::type_use::{ParamName, TypeUse};
use wc_ast::{ExportKind, GlobalType, Limits, List};

/// A field (Core 1.0, 6.6.13).
#[derive(Drop)]
pub enum Field<'a> {
    FuncType(TypeField<'a>),
    Import(Apart<ImportField<'a>>),
    Func(KeptFunc<'a>),
    Table(TableField<'a>),
    Memory(MemoryField<'a>),
    Global(GlobalField<'a>),
    Export(ExportField<'a>),
    Start(StartField<'a>),
    Elem(ElemField<'a>),
    Data(DataField<'a>),
}

/// A type (Core 1.0, 6.6.2).
#[derive(Drop)]
pub struct TypeField<'a> {
    pub id: Option<Id<'a>>,
    pub signature: Signature,
    /// The identifiers of parameters, in the order of the parameters.
    pub names: List<ParamName<'a>>,
}

/// What an import asks for.
#[derive(Drop)]
pub struct ImportNames<'a> {
    /// The number of the word `import`.
    pub token: u32,
    /// The name of the module.
    pub module: TextName<'a>,
    /// The name in that module.
    pub item: TextName<'a>,
}

/// An import (Core 1.0, 6.6.4).
#[derive(Drop)]
pub struct ImportField<'a> {
    pub names: ImportNames<'a>,
    pub id: Option<Id<'a>>,
    pub desc: ImportDesc<'a>,
}

/// What an import brings (Core 1.0, 6.6.4).
#[derive(Drop)]
pub enum ImportDesc<'a> {
    Func(TypeUse<'a>),
    Table(Limits),
    Memory(Limits),
    Global(GlobalType),
}

/// A function (Core 1.0, 6.6.5).
#[derive(Drop)]
pub struct FuncField<'a> {
    pub id: Option<Id<'a>>,
    /// The names under which it is exported.
    pub exports: List<TextName<'a>>,
    pub ty: TypeUse<'a>,
    pub desc: FuncDesc<'a>,
}

/// How a function is given.
#[derive(Drop)]
pub enum FuncDesc<'a> {
    Import(ImportNames<'a>),
    Code {
        locals: TextLocals<'a>,
        body: TextBody<'a>,
    },
}

/// A table (Core 1.0, 6.6.6).
#[derive(Drop)]
pub struct TableField<'a> {
    pub id: Option<Id<'a>>,
    /// The names under which it is exported.
    pub exports: List<TextName<'a>>,
    pub desc: TableDesc<'a>,
}

/// How a table is given.
#[derive(Drop)]
pub enum TableDesc<'a> {
    Import(Apart<ImportNames<'a>>, Limits),
    Limits(Limits),
    /// Its size and its first elements are those of this list of functions.
    Elems(List<Index<'a>>),
}

/// A memory (Core 1.0, 6.6.7).
#[derive(Drop)]
pub struct MemoryField<'a> {
    pub id: Option<Id<'a>>,
    /// The names under which it is exported.
    pub exports: List<TextName<'a>>,
    pub desc: MemoryDesc<'a>,
}

/// How a memory is given.
#[derive(Drop)]
pub enum MemoryDesc<'a> {
    Import(Apart<ImportNames<'a>>, Limits),
    Limits(Limits),
    /// Its size and its first content are those of these bytes.
    Bytes(List<u8>),
}

/// A global (Core 1.0, 6.6.8).
#[derive(Drop)]
pub struct GlobalField<'a> {
    pub id: Rare<Id<'a>>,
    /// The names under which it is exported.
    pub exports: RareList<TextName<'a>>,
    pub ty: GlobalType,
    pub desc: GlobalDesc<'a>,
}

/// How a global is given.
#[derive(Drop)]
pub enum GlobalDesc<'a> {
    Import(Apart<ImportNames<'a>>),
    /// Its first value.
    Init(KeptBody<'a>),
}

/// An export (Core 1.0, 6.6.9).
#[derive(Drop)]
pub struct ExportField<'a> {
    pub name: TextName<'a>,
    pub kind: ExportKind,
    pub index: Index<'a>,
}

/// The start function (Core 1.0, 6.6.10).
#[derive(Drop)]
pub struct StartField<'a> {
    /// The number of the word `start`.
    pub token: u32,
    pub index: Index<'a>,
}
