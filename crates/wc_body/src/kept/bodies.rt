//! Many bodies in one row of bytes.

ghost use Rattle.std.specs.Prelude.{◌≡◌, [], ◌∷◌, ◌++◌, IfOk, OnOk, OnErr};

use crate::kept::body::Body;
use crate::kept::body_ref::BodyRefs;
use crate::kept::place::{Place, ShortPlace};
use crate::needs::Needs;
use crate::runs::spelled::body_spelled;
use crate::try_clone::TryClone;
use std::alloc::{AllocError, Global};
use std::marker::Model;

/// Bodies, in order. A contract sees each. Their canonical bytes stand in one row, so that a great many small bodies
/// take little memory and time.
#[derive(Drop)]
pub struct Bodies {
    bytes: Vec<u8>,
    // Of each body, in short where that has room.
    places: Vec<ShortPlace>,
    // Of those that have no room there, in order.
    others: Vec<Place>,
    // What all of them need.
    needs: Needs,
}

impl Model for Bodies {
    ghost use Rattle.std.specs.Prelude.{List};
    ghost use Rattle.std.specs.Coded.{coded_list};
    ghost use Rattle.wc_body.specs.Standard.Nested.{Code};
    ghost use Rattle.wc_body.specs.Stored.Codes.{code_code};
    ghost use Rattle.wc_body.specs.Stored.Instructions.{instr_code};
    ghost use Rattle.wc_body.specs.declared.instr.BlockType.{BlockType};
    ghost use Rattle.wc_body.specs.declared.instr.Instr.{Instr};
    ghost use Rattle.wc_body.specs.contracts.instr.BlockType as block_type;

    ghost Value = { List (Code Instr BlockType) };

    ghost coded = { coded_list (code_code instr_code block_type.the_row.coded) };

    ghost use Rattle.wc_body.specs.Drafting.Places.{places_of, AreOthers};
    ghost use Rattle.wc_body.specs.Drafting.BodyRow.{bodies_at, IsRow};

    ghost view = { λ row. bodies_at (places_of row.places.items row.others.items) row.bytes.items };

    ghost invariant = { λ row. AreOthers row.places.items row.others.items
        × IsRow (places_of row.places.items row.others.items) row.bytes.items row.needs };
}

impl Bodies {
    ghost use Rattle.std.specs.Prelude.{length};
    ghost use Rattle.wc_body.specs.Standard.Entries.{nested};
    ghost use Rattle.wc_body.specs.Standard.Needed.{nothing, with_bodies};
    ghost use Rattle.wc_body.specs.Reading.Unpacked.{unpacked};
    ghost use Rattle.wc_body.specs.Drafting.PackedBody.{IsBody};
    ghost use Rattle.wc_body.specs.Standard.Spelled.{AddsSpelled};

    /// No bodies. It takes no memory.
    pub fn new(alloc: Global) -> Bodies
        ensures { result ≡ [] }
    {
        Bodies {
            bytes: Vec::new(alloc),
            places: Vec::new(alloc),
            others: Vec::new(alloc),
            needs: Needs::nothing(),
        }
    }

    /// How many there are.
    pub fn len(&self) -> usize
        ensures { result ≡ length self.now }
    {
        self.places.len()
    }

    /// What all of them need. It is at hand: it takes no time.
    pub fn needs(&self) -> Needs
        ensures { result ≡ with_bodies nothing self.now }
    {
        self.needs
    }

    /// Adds the body of these bytes at the end, which needs this.
    #[inline(always)]
    fn push_row(&mut self, bytes: &[u8], needs: Needs) -> Result<(), AllocError>
        requires { IsBody bytes.now needs }
        ensures ok { OnOk result (self.new ≡ self.old ++ nested (unpacked bytes.now) ∷ []) }
        ensures err { OnErr result (self.new ≡ self.old) }
    {
        let place = Place {
            size: bytes.len(),
            own: needs.own(),
        };
        let short = ShortPlace::of(place);
        self.places.reserve(1)?;
        if short.is_none() {
            self.others.reserve(1)?;
        }
        self.bytes.extend_from_slice(bytes)?;
        match short {
            Some(short) => self.places.push_reserved(short),
            None => {
                self.others.push_reserved(place);
                self.places.push_reserved(ShortPlace::elsewhere());
            }
        }
        self.needs = self.needs.joined(needs);
        Ok(())
    }

    /// Adds a copy of the body at the end. The error is want of memory, and then the row is as it was.
    pub fn push(&mut self, body: &Body) -> Result<(), AllocError>
        ensures ok { OnOk result (self.new ≡ self.old ++ body.now ∷ []) }
        ensures err { OnErr result (self.new ≡ self.old) }
    {
        self.push_row(body.row(), body.needs())
    }

    /// Adds the body at the end whose canonical bytes these are, with the byte that ends it (Core 1.0, 5.4.6), where
    /// it has usual instructions alone and no block, and answers whether it was added. So a small body is kept without
    /// a look at each part of it. The error is want of memory; then, and where it wasn't added, the row is as it was.
    #[inline(always)]
    pub fn push_spelled(&mut self, bytes: &[u8]) -> Result<bool, AllocError>
        ensures ok { IfOk result (AddsSpelled self.old self.new bytes.now) }
        ensures err { OnErr result (self.new ≡ self.old) }
    {
        let Some((row, needs)) = body_spelled(*self.bytes.allocator(), bytes) else {
            return Ok(false);
        };
        self.push_row(row, needs)?;
        Ok(true)
    }

    /// The bodies, one by one.
    pub fn iter(&self) -> BodyRefs<'_>
        ensures { result ≡ self.now }
    {
        BodyRefs::of_places(
            self.places.as_slice(),
            self.others.as_slice(),
            self.bytes.as_slice(),
        )
    }
}

impl TryClone for Bodies {
    fn try_clone(&self) -> Result<Bodies, AllocError> {
        let alloc = *self.bytes.allocator();
        Ok(Bodies {
            bytes: Vec::from_slice(alloc, self.bytes.as_slice())?,
            places: Vec::from_slice(alloc, self.places.as_slice())?,
            others: Vec::from_slice(alloc, self.others.as_slice())?,
            needs: self.needs,
        })
    }
}
