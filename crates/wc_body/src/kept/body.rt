//! Bodies of functions.

ghost use Rattle.std.specs.Prelude.{◌≡◌, IfOk};

use crate::kept::body_ref::BodyRef;
use crate::kept::constant::Constant;
use crate::needs::Needs;
use crate::try_clone::TryClone;
use crate::walks::entries::Entries;
use std::alloc::{AllocError, Global};
use std::marker::Model;

/// How many blocks, loops and ifs may be open at once in a body. It is a limit of this project (Core 1.0, 7.2 allows
/// one).
pub const NESTING_LIMIT: usize = 20_000;

/// How many bytes of room a finished body may keep: giving back fewer costs more time than they are worth.
const SPARE_LIMIT: usize = 16;

/// An expression (Core 1.0, 2.4.6). A contract sees the instructions nested in one another, at most `NESTING_LIMIT`
/// deep. They are kept as one row of entries, each by its canonical bytes, so no call on a body calls itself.
#[derive(Drop)]
pub struct Body {
    bytes: Vec<u8>,
    needs: Needs,
}

impl Model for Body {
    ghost use Rattle.wc_body.specs.Standard.Nested.{Code};
    ghost use Rattle.wc_body.specs.Stored.Codes.{code_code};
    ghost use Rattle.wc_body.specs.Stored.Instructions.{instr_code};
    ghost use Rattle.wc_body.specs.declared.instr.BlockType.{BlockType};
    ghost use Rattle.wc_body.specs.declared.instr.Instr.{Instr};
    ghost use Rattle.wc_body.specs.contracts.instr.BlockType as block_type;

    ghost Value = { Code Instr BlockType };

    ghost coded = { code_code instr_code block_type.the_row.coded };

    ghost use Rattle.wc_body.specs.Standard.Entries.{nested};
    ghost use Rattle.wc_body.specs.Reading.Unpacked.{unpacked, IsPacked};
    ghost use Rattle.wc_body.specs.Drafting.PackedBody.{IsBody};

    ghost view = { λ body. nested (unpacked body.bytes.items) };

    ghost invariant = { λ body. IsBody body.bytes.items body.needs };
}

impl Body {
    ghost use Rattle.std.specs.Prelude.{◌≡◌, ◌≤◌};
    ghost use Rattle.wc_body.specs.Standard.Nested.{empty, flatten, nesting, nesting_limit};
    ghost use Rattle.wc_body.specs.Standard.Entries.{nested};
    ghost use Rattle.wc_body.specs.Standard.InstructionBytes.{code_bytes, FitsExpr};
    ghost use Rattle.wc_body.specs.Standard.Needed.{needs_of};
    ghost use Rattle.wc_body.specs.Reading.Unpacked.{unpacked};
    ghost use Rattle.wc_body.specs.Drafting.PackedBody.{IsBody};

    pub(crate) fn from_bytes(bytes: Vec<u8>, needs: Needs) -> Body
        requires { IsBody bytes.items needs }
        ensures { result ≡ nested (unpacked bytes.items) }
    {
        Body { bytes, needs }
    }

    /// No instructions. It takes no memory.
    pub fn new(alloc: Global) -> Body
        ensures { result ≡ empty }
    {
        Body {
            bytes: Vec::new(alloc),
            needs: Needs::nothing(),
        }
    }

    /// The same instructions, where they stand.
    pub fn as_ref(&self) -> BodyRef<'_>
        ensures { result ≡ self.now }
    {
        BodyRef::from_bytes(self.bytes.as_slice(), self.needs.own())
    }

    /// The bytes that the instructions are kept by.
    pub(crate) fn row(&self) -> &[u8]
        ensures kept { IsBody result.now (needs_of self.now) }
        ensures nested { nested (unpacked result.now) ≡ self.now }
    {
        let Body { bytes, needs: _ } = self;
        bytes.as_slice()
    }

    /// The same instructions, without the room for more, unless that is for a few bytes only.
    pub(crate) fn without_room(self) -> Body
        ensures { result ≡ self }
    {
        Body {
            bytes: trimmed(self.bytes),
            needs: self.needs,
        }
    }

    /// The same instructions, without what they need of what is around them, and without room for more.
    pub fn into_constant(self) -> Constant
        ensures { result ≡ self }
    {
        let Body { bytes, needs: _ } = self;
        Constant::from_bytes(trimmed(bytes))
    }

    /// The memory that the instructions stand in.
    pub(crate) fn into_bytes(self) -> Vec<u8> {
        let Body { bytes, needs: _ } = self;
        bytes
    }

    /// The entries, in order. Each `Begin` has its `End`; the end of the body itself has no entry. An `Else` stands
    /// only before an else part with an instruction.
    pub fn entries(&self) -> Entries<'_>
        ensures marks { result ≡ flatten self.now }
        ensures within { nesting self.now ≤ nesting_limit }
    {
        Entries::of_bytes(self.bytes.as_slice())
    }

    /// The canonical bytes of the instructions (Core 1.0, 5.4), without the byte that ends an expression. They are at
    /// hand: it takes no time.
    pub fn bytes(&self) -> &[u8]
        ensures bytes { result.now ≡ code_bytes self.now }
        ensures fits { FitsExpr self.now }
    {
        self.bytes.as_slice()
    }

    /// What the instructions need of what is around them (Core 1.0, 3.3). It is at hand: it takes no time.
    pub fn needs(&self) -> Needs
        ensures { result ≡ needs_of self.now }
    {
        self.needs
    }
}

impl TryClone for Body {
    fn try_clone(&self) -> Result<Body, AllocError> {
        let bytes = Vec::from_slice(*self.bytes.allocator(), self.bytes.as_slice())?;
        Ok(Body {
            bytes,
            needs: self.needs,
        })
    }
}

/// The same bytes, without the room for more, unless that is for a few only.
fn trimmed(bytes: Vec<u8>) -> Vec<u8>
    ensures { result.items ≡ bytes.items }
{
    let mut bytes = bytes;
    if bytes.capacity() - bytes.len() > SPARE_LIMIT {
        bytes.shrink_to_fit();
    }
    bytes
}
