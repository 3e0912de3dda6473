//! Walks over the entries of a body that is kept. `next` gives whichever comes first; four calls give what they can
//! tell faster, most of a body, and leave the rest to it:
//! - `short`: an instruction of its opcode and at most one byte more;
//! - `brief`: an entry whose integers have one byte each, whose alignment is the natural one and whose block type is
//!   the empty one, by its opcode and one number;
//! - `numbered`: an instruction of one integer, an index or a constant, by its opcode and that integer;
//! - `bounded`: an entry whose bytes have a bound, whatever its integers are: any but a table of labels, and but `else`
//!   and `end`, which are brief.

pub mod bounded;
pub(crate) mod bounded_front;
pub mod brief;
pub mod entries;
pub mod numbered;
pub mod short;
pub(crate) mod short_front;
