//! The canonical bytes of entries: put behind others, and read back. A long integer has more than one byte.

pub(crate) mod find;
pub(crate) mod number;
pub(crate) mod put;
