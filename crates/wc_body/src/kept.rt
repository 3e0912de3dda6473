//! Bodies as they are kept, by their canonical bytes: one with memory of its own, a constant expression, one that
//! stands elsewhere, and many in a row. A short place is what a row knows of a small body, in four bytes.

pub mod bodies;
pub mod body;
pub mod body_ref;
pub mod constant;
pub(crate) mod place;
