//! Constant expressions.

ghost use Rattle.std.specs.Prelude.{◌≡◌, IfOk};

use crate::kept::body::Body;
use crate::try_clone::TryClone;
use crate::walks::entries::Entries;
use std::alloc::AllocError;
use std::marker::Model;

/// An expression that gives a first value or an offset (Core 1.0, 2.4.6 and 3.3.7). A contract sees the instructions,
/// as those of a body. What they need of what is around them isn't kept: that is told by looking at them.
#[derive(Drop)]
pub struct Constant {
    bytes: Vec<u8>,
}

impl Model for Constant {
    ghost use Rattle.wc_body.specs.Standard.Nested.{Code};
    ghost use Rattle.wc_body.specs.Stored.Codes.{code_code};
    ghost use Rattle.wc_body.specs.Stored.Instructions.{instr_code};
    ghost use Rattle.wc_body.specs.declared.instr.BlockType.{BlockType};
    ghost use Rattle.wc_body.specs.declared.instr.Instr.{Instr};
    ghost use Rattle.wc_body.specs.contracts.instr.BlockType as block_type;

    ghost Value = { Code Instr BlockType };

    ghost coded = { code_code instr_code block_type.the_row.coded };

    ghost use Rattle.wc_body.specs.Standard.Entries.{nested};
    ghost use Rattle.wc_body.specs.Standard.Needed.{needs_of};
    ghost use Rattle.wc_body.specs.Reading.Unpacked.{unpacked};
    ghost use Rattle.wc_body.specs.Drafting.PackedBody.{IsBody};

    ghost view = { λ constant. nested (unpacked constant.bytes.items) };

    ghost invariant = { λ kept. IsBody kept.bytes.items (needs_of (nested (unpacked kept.bytes.items))) };
}

impl Constant {
    ghost use Rattle.std.specs.Prelude.{◌≡◌, ◌≤◌};
    ghost use Rattle.wc_body.specs.Standard.Nested.{flatten, nesting, nesting_limit};
    ghost use Rattle.wc_body.specs.Standard.Entries.{nested};
    ghost use Rattle.wc_body.specs.Standard.InstructionBytes.{code_bytes, FitsExpr};
    ghost use Rattle.wc_body.specs.Standard.Needed.{needs_of};
    ghost use Rattle.wc_body.specs.Reading.Unpacked.{unpacked};
    ghost use Rattle.wc_body.specs.Drafting.PackedBody.{IsBody};

    pub(crate) fn from_bytes(bytes: Vec<u8>) -> Constant
        requires { IsBody bytes.items (needs_of (nested (unpacked bytes.items))) }
        ensures { result ≡ nested (unpacked bytes.items) }
    {
        Constant { bytes }
    }

    /// The entries, in order, as those of a body.
    pub fn entries(&self) -> Entries<'_>
        ensures marks { result ≡ flatten self.now }
        ensures within { nesting self.now ≤ nesting_limit }
    {
        Entries::of_bytes(self.bytes.as_slice())
    }

    /// The canonical bytes of the instructions (Core 1.0, 5.4), without the byte that ends an expression. They are at
    /// hand: it takes no time.
    pub fn bytes(&self) -> &[u8]
        ensures bytes { result.now ≡ code_bytes self.now }
        ensures fits { FitsExpr self.now }
    {
        self.bytes.as_slice()
    }
}

impl TryClone for Constant {
    fn try_clone(&self) -> Result<Constant, AllocError> {
        let bytes = Vec::from_slice(*self.bytes.allocator(), self.bytes.as_slice())?;
        Ok(Constant { bytes })
    }
}
