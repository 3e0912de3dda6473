//! The value types and the opcodes of WebAssembly: their bytes, their names, and what each byte and each word means.
#![tactic(auto)]

pub mod op;
pub mod op_law;
pub mod op_of_byte;
pub mod op_of_name;
pub mod op_row;
pub mod val_type;

pub use crate::op::{IndexOp, MemOp, Op, OpByte, OpName, SimpleOp};
pub use crate::op_law::{
    leads_back, meaning_is_the_table, one_meaning, rows_differ, value_types_lead_back,
};
pub use crate::val_type::ValType;
