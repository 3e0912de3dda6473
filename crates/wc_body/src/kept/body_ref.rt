//! Bodies that stand elsewhere, and those of a row.

ghost use Rattle.std.specs.Prelude.{◌≡◌};
ghost use Rattle.std.specs.Iterator.{YieldsFirst, item_count};
ghost use Rattle.wc_body.specs.Standard.Needed.{needs_of, own_of};

use crate::kept::place::{Place, ShortPlace};
use crate::needs::OwnNeeds;
use crate::walks::entries::Entries;
use std::marker::Model;

/// An expression (Core 1.0, 2.4.6) that stands elsewhere. A contract sees the instructions nested in one another.
#[derive(Drop)]
pub struct BodyRef<'a> {
    bytes: &'a [u8],
    own: OwnNeeds,
}

impl<'a> Model for BodyRef<'a> {
    ghost use Rattle.wc_body.specs.Standard.Nested.{Code};
    ghost use Rattle.wc_body.specs.Stored.Codes.{code_code};
    ghost use Rattle.wc_body.specs.Stored.Instructions.{instr_code};
    ghost use Rattle.wc_body.specs.declared.instr.BlockType.{BlockType};
    ghost use Rattle.wc_body.specs.declared.instr.Instr.{Instr};
    ghost use Rattle.wc_body.specs.contracts.instr.BlockType as block_type;

    ghost Value = { Code Instr BlockType };

    ghost coded = { code_code instr_code block_type.the_row.coded };

    ghost use Rattle.wc_body.specs.Standard.Entries.{nested};
    ghost use Rattle.wc_body.specs.Reading.Unpacked.{unpacked};
    ghost use Rattle.wc_body.specs.Drafting.BodyRow.{IsBodyOf};

    ghost view = { λ body. nested (unpacked body.bytes.now) };

    ghost invariant = { λ body. IsBodyOf body.bytes.now body.own };
}

impl<'a> BodyRef<'a> {
    ghost use Rattle.std.specs.Prelude.{◌≤◌};
    ghost use Rattle.wc_body.specs.Standard.Nested.{flatten, nesting, nesting_limit};
    ghost use Rattle.wc_body.specs.Standard.Entries.{nested};
    ghost use Rattle.wc_body.specs.Standard.InstructionBytes.{code_bytes, FitsExpr};
    ghost use Rattle.wc_body.specs.Reading.Unpacked.{unpacked};
    ghost use Rattle.wc_body.specs.Drafting.BodyRow.{IsBodyOf};

    pub(crate) fn from_bytes(bytes: &'a [u8], own: OwnNeeds) -> BodyRef<'a>
        requires { IsBodyOf bytes.now own }
        ensures { result ≡ nested (unpacked bytes.now) }
    {
        BodyRef { bytes, own }
    }

    /// The entries, in order. Each `Begin` has its `End`; the end of the body itself has no entry. An `Else` stands
    /// only before an else part with an instruction.
    pub fn entries(&self) -> Entries<'a>
        ensures marks { result ≡ flatten self.now }
        ensures within { nesting self.now ≤ nesting_limit }
    {
        Entries::of_bytes(self.bytes)
    }

    /// The canonical bytes of the instructions (Core 1.0, 5.4), without the byte that ends an expression.
    pub fn bytes(&self) -> &'a [u8]
        ensures bytes { result.now ≡ code_bytes self.now }
        ensures fits { FitsExpr self.now }
    {
        self.bytes
    }

    /// Of what the instructions need of what is around them (Core 1.0, 3.3), that which is kept of each body.
    pub fn own_needs(&self) -> OwnNeeds
        ensures { result ≡ own_of (needs_of self.now) }
    {
        self.own
    }
}

/// The bodies of a row that are left, in order. Taking one takes no memory.
#[derive(Drop)]
pub struct BodyRefs<'a> {
    places: &'a [ShortPlace],
    // Of those that the short places don't tell.
    others: &'a [Place],
    bytes: &'a [u8],
}

impl<'a> Model for BodyRefs<'a> {
    ghost use Rattle.std.specs.Prelude.{List};
    ghost use Rattle.std.specs.Coded.{coded_list};
    ghost use Rattle.wc_body.specs.Standard.Nested.{Code};
    ghost use Rattle.wc_body.specs.Stored.Codes.{code_code};
    ghost use Rattle.wc_body.specs.Stored.Instructions.{instr_code};
    ghost use Rattle.wc_body.specs.declared.instr.BlockType.{BlockType};
    ghost use Rattle.wc_body.specs.declared.instr.Instr.{Instr};
    ghost use Rattle.wc_body.specs.contracts.instr.BlockType as block_type;

    ghost Value = { List (Code Instr BlockType) };

    ghost coded = { coded_list (code_code instr_code block_type.the_row.coded) };

    ghost use Rattle.wc_body.specs.Drafting.Places.{places_of, AreOthers};
    ghost use Rattle.wc_body.specs.Drafting.BodyRow.{bodies_at, AreBodies};

    ghost view = { λ row. bodies_at (places_of row.places.now row.others.now) row.bytes.now };

    ghost invariant = { λ row. AreOthers row.places.now row.others.now
        × AreBodies (places_of row.places.now row.others.now) row.bytes.now };
}

impl<'a> BodyRefs<'a> {
    ghost use Rattle.wc_body.specs.Drafting.Places.{places_of, AreOthers};
    ghost use Rattle.wc_body.specs.Drafting.BodyRow.{bodies_at, AreBodies};

    pub(crate) fn of_places(
        places: &'a [ShortPlace],
        others: &'a [Place],
        bytes: &'a [u8],
    ) -> BodyRefs<'a>
        requires others { AreOthers places.now others.now }
        requires bodies { AreBodies (places_of places.now others.now) bytes.now }
        ensures { result ≡ bodies_at (places_of places.now others.now) bytes.now }
    {
        BodyRefs {
            places,
            others,
            bytes,
        }
    }
}

impl<'a> Iterator for BodyRefs<'a> {
    type Item = BodyRef<'a>;

    ghost next_gives = { YieldsFirst (λ bodies. bodies) };

    ghost remaining = { item_count (λ bodies. bodies) };

    fn next(&mut self) -> Option<BodyRef<'a>> {
        let (short, places) = self.places.split_first()?;
        let place = match short.told() {
            Some(place) => place,
            None => {
                let (place, others) = self.others.split_first()?;
                self.others = others;
                *place
            }
        };
        let (bytes, rest) = self.bytes.split_at(place.size);
        self.places = places;
        self.bytes = rest;
        Some(BodyRef::from_bytes(bytes, place.own))
    }
}
