//! The entries of a body, one by one.

ghost use Rattle.std.specs.Prelude.{◌≡◌};
ghost use Rattle.std.specs.Iterator.{YieldsFirstBy, item_count};
ghost use Rattle.wc_body.specs.Standard.Entries.{mark};

use crate::bytes::find::entry_at;
use crate::entry::Entry;
use crate::walks::bounded::Bounded;
use crate::walks::bounded_front::bounded_at;
use crate::walks::brief::{Brief, brief_at};
use crate::walks::numbered::{Numbered, numbered_at};
use crate::walks::short::Short;
use crate::walks::short_front::short_at;
use std::marker::Model;

/// The entries of a body that are left, in order. A contract sees their marks. Taking one takes no memory.
#[derive(Drop)]
pub struct Entries<'a> {
    bytes: &'a [u8],
}

impl<'a> Model for Entries<'a> {
    ghost use Rattle.std.specs.Prelude.{List};
    ghost use Rattle.std.specs.Coded.{coded_list};
    ghost use Rattle.wc_body.specs.Standard.Nested.{Mark};
    ghost use Rattle.wc_body.specs.Stored.Codes.{mark_code};
    ghost use Rattle.wc_body.specs.Stored.Instructions.{instr_code};
    ghost use Rattle.wc_body.specs.declared.instr.BlockType.{BlockType};
    ghost use Rattle.wc_body.specs.declared.instr.Instr.{Instr};
    ghost use Rattle.wc_body.specs.contracts.instr.BlockType as block_type;

    ghost Value = { List (Mark Instr BlockType) };

    ghost coded = { coded_list (mark_code instr_code block_type.the_row.coded) };

    ghost use Rattle.wc_body.specs.Standard.Entries.{marks};
    ghost use Rattle.wc_body.specs.Reading.Unpacked.{unpacked, IsPacked};

    ghost view = { λ entries. marks (unpacked entries.bytes.now) };

    ghost invariant = { λ entries. IsPacked entries.bytes.now };
}

impl<'a> Entries<'a> {
    ghost use Rattle.std.specs.Prelude.{[], ◌∷◌, IsNone, IfSome};
    ghost use Rattle.wc_body.specs.Standard.Entries.{marks};
    ghost use Rattle.wc_body.specs.Standard.Nested.{plain};
    ghost use Rattle.wc_body.specs.Standard.Walks.Short.{instruction};
    ghost use Rattle.wc_body.specs.Standard.Walks.Brief.{SaysFirst};
    ghost use Rattle.wc_body.specs.Standard.Walks.Numbered.{SaysNumbered};
    ghost use Rattle.wc_body.specs.Standard.Walks.Bounded.{bounded};
    ghost use Rattle.wc_body.specs.Reading.Unpacked.{unpacked, IsPacked};

    pub(crate) fn of_bytes(bytes: &'a [u8]) -> Entries<'a>
        requires { IsPacked bytes.now }
        ensures { result ≡ marks (unpacked bytes.now) }
    {
        Entries { bytes }
    }

    // Inlined where entries are walked over, so that an entry needn't be written to memory.
    #[inline(always)]
    fn take_first(&mut self) -> Option<Entry<'a>>
        ensures none { IsNone result → (self.old ≡ []) × (self.new ≡ []) }
        ensures some { IfSome result (λ entry. self.old ≡ mark entry ∷ self.new) }
    {
        let (entry, rest) = entry_at(self.bytes)?;
        self.bytes = rest;
        Some(entry)
    }

    /// The first entry that is left, where it is an instruction of at most two bytes: it is taken. What is short, most
    /// of a body, is had in registers by it. Where it answers none, nothing is taken, and `next` tells what is left.
    #[inline(always)]
    pub fn next_short(&mut self) -> Option<Short>
        ensures some { IfSome result (λ short. self.old ≡ plain (instruction short) ∷ self.new) }
        ensures none { IsNone result → self.new ≡ self.old }
    {
        let (short, behind) = short_at(self.bytes)?;
        self.bytes = behind;
        Some(short)
    }

    /// The first entry that is left, where it is a brief one: it is taken. So most of a body is had without a test of
    /// what each entry is. Where it answers none, nothing is taken, and `next` tells what is left.
    #[inline(always)]
    pub fn next_brief(&mut self) -> Option<Brief>
        ensures some { IfSome result (λ brief. SaysFirst brief self.old self.new) }
        ensures none { IsNone result → self.new ≡ self.old }
    {
        let (brief, left) = brief_at(self.bytes)?;
        self.bytes = left;
        Some(brief)
    }

    /// The first entry that is left, where it is an instruction of one integer that has at most eight bytes, a read of
    /// a global or any other of an index but a branch, or a constant, and nine bytes are at hand: it is taken. So most
    /// that aren't brief are had without a test of what each is. Where it answers none, nothing is taken, and `next`
    /// tells what is left.
    #[inline(always)]
    pub fn next_numbered(&mut self) -> Option<Numbered>
        ensures some { IfSome result (λ it. SaysNumbered it self.old self.new) }
        ensures none { IsNone result → self.new ≡ self.old }
    {
        let (first, following) = numbered_at(self.bytes)?;
        self.bytes = following;
        Some(first)
    }

    /// The first entry that is left, where its bytes have a bound: it is taken. So all entries but tables of labels
    /// that aren't brief are had without a place for whatever an entry may have. Where it answers none, nothing is
    /// taken, and `next` tells what is left.
    #[inline(always)]
    pub fn next_bounded(&mut self) -> Option<Bounded>
        ensures some { IfSome result (λ b. self.old ≡ mark (bounded b) ∷ self.new) }
        ensures none { IsNone result → self.new ≡ self.old }
    {
        let (first, after) = bounded_at(self.bytes)?;
        self.bytes = after;
        Some(first)
    }
}

impl<'a> Iterator for Entries<'a> {
    type Item = Entry<'a>;

    ghost next_gives = { YieldsFirstBy mark (λ entries. entries) };

    ghost remaining = { item_count (λ entries. entries) };

    #[inline(always)]
    fn next(&mut self) -> Option<Entry<'a>> {
        self.take_first()
    }
}
