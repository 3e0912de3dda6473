//! Runs of entries, told from the bytes that spell them, so that most are kept without a copy of each. An instruction
//! that is told by itself is added in `builder/fitting`. The words for what is told:
//! - `front`: an entry that bytes begin with, spelled as it is kept; what follows it is answered;
//! - `usual`: such an entry that is no else, table of labels, nor a block whose type is an index, with one byte for an
//!   alignment and at most nine for a constant;
//! - `light`: a usual instruction whose integers have one byte each, which needs no label beyond the enclosing blocks
//!   and no alignment above the width of the access, so that a row of a table tells all of it;
//! - `long`: an index or a constant of two bytes or more, of which those of two are taken along with light entries;
//! - `far`: an access of memory whose offset has two bytes, which is taken along with them too;
//! - `outer`: a call or an access of a global;
//! - `wide`: an index or a constant of five bytes or more, as linkers leave them, or an access of memory whose
//!   alignment has as many; of the first two the rows of a table tell most (`wide`);
//! - `respelled`: the same with its shortest spelling, where it ends among the eight bytes behind the opcode;
//! - `free`: an index, a constant or an access in any spelling, which is kept by its shortest;
//! - `alone`: an instruction that its opcode says by itself, told shortly before a wide one;
//! - `two`: a light instruction of two bytes, but no call nor access of a global, told there too;
//! - `handed`: a call or an instruction of a local whose index has one byte, as where parameters are handed on;
//! - `spelled`: a whole body by its canonical bytes, with the byte that ends it.

pub(crate) mod free;
pub(crate) mod front;
pub(crate) mod integers;
pub(crate) mod light;
pub(crate) mod spelled;
pub(crate) mod wide;
