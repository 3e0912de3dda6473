//! What one field of a text says, kept token by kept token (Core 1.0, 6.6.2 to 6.6.12).
#![tactic(auto)]

mod code_draft;
mod contents;
mod field_draft;
mod finish;
mod laws;
mod locals_draft;
mod name;
mod names;
mod parts;
mod whole;

pub use field_draft::FieldDraft;
pub use laws::{always_some_fields, one_list_of_fields};
pub use whole::{export_of, func_import_of};
