//! Instructions that are added only where the memory at hand has room for them.

ghost use Rattle.std.specs.Prelude.{[], ◌∷◌, ◌≡◌, ◌<◌, false, true, IfSome, IsNone};
ghost use Rattle.wc_body.specs.Standard.Draft.{step};
ghost use Rattle.wc_body.specs.Standard.Nested.{plain};
ghost use Rattle.wc_body.specs.Drafting.FreeEntries.{SpellsEntry, AddsOne};
ghost use Rattle.wc_body.specs.declared.instr.Instr.{Instr as AnInstr};
ghost use Rattle.wc_body.specs.declared.entry.Entry.TheVariants.{Plain};

use crate::builder::BodyBuilder;
use crate::bytes::put::{INTEGER_LIMIT, put_cut};
use crate::instr::Instr;
use crate::runs::light::before::{is_alone, note_two};
use crate::runs::wide::{integer_of, note_wide, wide_of};

impl BodyBuilder {
    /// Adds an instruction of one integer, or an access of memory, where there is room for it, and answers whether it
    /// was added.
    #[inline(always)]
    pub(crate) fn push_fitting(&mut self, instr: Instr<'_>) -> bool
        ensures added { result ≡ true → self.new ≡ step self.old (plain instr.entry) }
        ensures same { result ≡ false → self.new ≡ self.old }
    {
        if self.bytes.capacity() - self.bytes.len() < INTEGER_LIMIT {
            return false;
        }
        self.push_plain(instr).is_ok()
    }

    /// Adds the instruction of this opcode, where nothing follows that and there is room for it, and answers whether it
    /// was added.
    #[inline(always)]
    pub(crate) fn push_alone(&mut self, opcode: u8) -> bool
        ensures added { result ≡ true → (i : AnInstr) × SpellsEntry (Plain i) (opcode ∷ [])
            × (self.new ≡ step self.old (plain i)) }
        ensures same { result ≡ false → self.new ≡ self.old }
    {
        if self.bytes.len() >= self.bytes.capacity() || !is_alone(opcode) {
            return false;
        }
        self.bytes.push_reserved(opcode);
        self.after_else = false;
        true
    }

    /// Adds the instruction of these two bytes, where it is light, no call nor access of a global, and there is room
    /// for it, and answers whether it was added.
    #[inline(always)]
    pub(crate) fn push_two(&mut self, opcode: u8, second: u8) -> bool
        requires { second < 128 }
        ensures added { result ≡ true → (i : AnInstr) × SpellsEntry (Plain i) (opcode ∷ second ∷ [])
            × (self.new ≡ step self.old (plain i)) }
        ensures same { result ≡ false → self.new ≡ self.old }
    {
        if self.bytes.capacity() - self.bytes.len() < 2 {
            return false;
        }
        if !note_two(opcode, second, self.parts.len(), &mut self.needs) {
            return false;
        }
        self.bytes.push_reserved(opcode);
        self.bytes.push_reserved(second);
        self.after_else = false;
        true
    }

    /// Adds the instruction of one integer that these bytes begin with, where a row of a table tells what it is like,
    /// it ends among the eight bytes behind the opcode, and there is room for it. What follows it is answered.
    // No branch by the opcode or by how many bytes there are.
    #[inline(always)]
    pub(crate) fn push_respelled<'a>(&mut self, bytes: &'a [u8]) -> Option<&'a [u8]>
        ensures some { IfSome result (λ rest. AddsOne self.old self.new bytes.now rest.now) }
        ensures none { IsNone result → self.new ≡ self.old }
    {
        let (opcode, rest) = bytes.split_first()?;
        if self.bytes.capacity() - self.bytes.len() < INTEGER_LIMIT {
            return None;
        }
        let row = wide_of(*opcode);
        let integer = integer_of(row, rest)?;
        note_wide(&mut self.needs, row, integer.value);
        put_cut(&mut self.bytes, *opcode, &integer.bytes, integer.length);
        self.after_else = false;
        Some(&rest[integer.count..])
    }
}
