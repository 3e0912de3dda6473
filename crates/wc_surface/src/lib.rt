//! What a text says before its names are resolved: its fields, with identifiers where the text has them.
#![tactic(auto)]

pub mod code;
pub mod code_builder;
mod few_bytes;
pub mod field;
pub mod func_parts;
pub mod head;
pub mod id;
pub mod instr;
pub mod kept_body;
pub mod kept_func;
pub mod law;
pub mod local;
pub mod rare;
pub mod segment;
pub mod signature;
pub mod surface;
pub mod text_name;
mod trim;
pub mod type_use;
pub mod use_ref;

pub use crate::code::{TextCode, TextEntry};
pub use crate::code_builder::CodeBuilder;
pub use crate::field::{
    ExportField, Field, FuncDesc, FuncField, GlobalDesc, GlobalField, ImportDesc, ImportField,
    ImportNames, MemoryDesc, MemoryField, StartField, TableDesc, TableField, TypeField,
};
pub use crate::head::{Head, HeadType, TextBody};
pub use crate::id::{Id, Index};
pub use crate::instr::{Operand, TextInstr};
pub use crate::kept_body::KeptBody;
pub use crate::kept_func::{FuncSeen, FuncWord, KeptFunc};
pub use crate::law::one_key;
pub use crate::local::{Local, LocalGroup, LocalsRef, TextLocals};
pub use crate::rare::{Apart, Rare, RareList};
pub use crate::segment::{DataField, ElemField};
pub use crate::signature::Signature;
pub use crate::surface::Surface;
pub use crate::text_name::TextName;
pub use crate::type_use::{ParamName, TypeUse, User};
pub use crate::use_ref::UseRef;
