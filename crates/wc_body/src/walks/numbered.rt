//! Instructions of one integer, by their opcode and that integer.

ghost use Rattle.std.specs.Prelude.{IfSome};
ghost use Rattle.wc_body.specs.Reading.Numbering.{BeginsNumbered};

use crate::runs::wide::{integer_of, wide_of};

/// An instruction of one integer, an index or a constant, by its opcode and that integer (Core 1.0, 5.4).
#[derive(Clone, Copy, PartialEq, Eq)]
pub struct Numbered {
    pub opcode: u8,
    /// The index, or the constant with its sign.
    pub number: i64,
}

/// The instruction of one integer that the bytes begin with, where a row of a table tells what it is like, and what
/// follows it.
// No branch by the opcode or by how many bytes the integer has, since neither could be foretold.
#[inline(always)]
pub(crate) fn numbered_at(bytes: &[u8]) -> Option<(Numbered, &[u8])>
    ensures { IfSome result (λ f. BeginsNumbered f.0 bytes.now f.1.now) }
{
    let (opcode, rest) = bytes.split_first()?;
    let integer = integer_of(wide_of(*opcode), rest)?;
    Some((
        Numbered {
            opcode: *opcode,
            number: integer.value,
        },
        &rest[integer.count..],
    ))
}
