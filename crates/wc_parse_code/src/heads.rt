//! Heads of blocks that are being said.

ghost use Rattle.std.specs.Prelude.{◌≡◌, ◌↔◌, [], ◌∷◌, ◌++◌, IsTrue, OnOk};
ghost use Rattle.wc_parse_code.specs.Drafting.Heads.{with_else_id, with_end_id};

use std::alloc::{AllocError, Global};
use std::marker::Model;
use std::mem::replace;
use wc_ast::List;
use wc_surface::{Head, Id, Rare};

/// The heads of a body so far. A contract sees them as a list.
#[derive(Drop)]
pub struct Heads<'a> {
    items: Vec<Head<'a>>,
}

impl<'a> Model for Heads<'a> {
    ghost use Rattle.std.specs.Prelude.{List as Seq};
    ghost use Rattle.wc_surface.specs.declared.head.Head.{Head};

    ghost Value = { Seq Head };

    ghost view = { λ heads. heads.items.items };
}

impl<'a> Heads<'a> {
    ghost use Rattle.wc_parse_code.specs.Drafting.Words.{place_behind};

    /// None so far. It takes no memory.
    pub(crate) fn new(alloc: Global) -> Heads<'a>
        ensures { result ≡ [] }
    {
        Heads {
            items: Vec::new(alloc),
        }
    }

    /// Adds a head at the end. The error is want of memory.
    pub(crate) fn push(&mut self, head: Head<'a>) -> Result<(), AllocError>
        ensures { OnOk result (self.new ≡ self.old ++ head.entry ∷ []) }
    {
        self.items.reserve(1)?;
        self.items.push_reserved(head);
        Ok(())
    }

    /// Whether there is no head.
    #[inline(always)]
    pub(crate) fn is_empty(&self) -> bool
        ensures { IsTrue result ↔ (self.now ≡ []) }
    {
        self.items.is_empty()
    }

    /// The place that the next head will have, as 32 bits hold it.
    pub(crate) fn place_behind(&self) -> u32
        ensures { result ≡ place_behind self.now }
    {
        crate::row::low_32(self.items.as_slice().len())
    }

    /// Puts the identifier behind `else` into the head of this place. The error is want of memory.
    pub(crate) fn set_else_id(&mut self, place: u32, id: Id<'a>) -> Result<(), AllocError>
        ensures { OnOk result (self.new ≡ with_else_id self.old place id.entry) }
    {
        let place = place as usize;
        if place < self.items.len() {
            let id = Rare::some(*self.items.allocator(), id)?;
            drop(replace(&mut self.items[place].else_id, id));
        }
        Ok(())
    }

    /// Puts the identifier behind `end` into the head of this place. The error is want of memory.
    pub(crate) fn set_end_id(&mut self, place: u32, id: Id<'a>) -> Result<(), AllocError>
        ensures { OnOk result (self.new ≡ with_end_id self.old place id.entry) }
    {
        let place = place as usize;
        if place < self.items.len() {
            let id = Rare::some(*self.items.allocator(), id)?;
            drop(replace(&mut self.items[place].end_id, id));
        }
        Ok(())
    }

    /// Drops the heads, and keeps the memory that they stood in.
    #[inline(always)]
    pub(crate) fn clear(&mut self)
        ensures { self.new ≡ [] }
    {
        self.items.clear();
    }

    /// Takes the heads out. It takes no memory.
    pub(crate) fn take_list(&mut self) -> List<Head<'a>>
        ensures list { result ≡ self.old }
        ensures none { self.new ≡ [] }
    {
        let alloc = *self.items.allocator();
        List::from_vec(replace(&mut self.items, Vec::new(alloc)))
    }
}
