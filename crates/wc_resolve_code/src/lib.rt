//! The instructions of a text with numbers in place of identifiers, labels and type uses.
#![tactic(auto)]

mod around;
mod body;
mod head;
mod operand;
mod plain;
mod put;
mod table;
mod why;

pub use around::Around;
pub use body::resolve_body;
pub use why::NameWhy;
