//! Rows that are being filled.

ghost use Rattle.std.specs.Prelude.{◌≡◌, ◌%◌, ◌^◌, ◌↔◌, [], ◌∷◌, ◌++◌, length, IsTrue, OnOk};

use std::alloc::{AllocError, Global};
use std::marker::Model;
use wc_ast::List;

/// A list that is being filled from its front. A contract sees the items so far.
#[derive(Drop)]
pub struct Row<T> {
    items: Vec<T>,
}

impl<T> Model for Row<T> {
    ghost use Rattle.std.specs.Prelude.{List as Seq};

    ghost Value = { Seq T };

    ghost view = { λ row. row.items.items };
}

impl<T: Drop> Row<T> {
    ghost use Rattle.wc_parse_code.specs.Drafting.Words.{place_behind};

    /// Nothing so far. It takes no memory.
    pub(crate) fn new(alloc: Global) -> Row<T>
        ensures { result ≡ [] }
    {
        Row {
            items: Vec::new(alloc),
        }
    }

    /// Adds an item at the end. The error is want of memory.
    #[inline(always)]
    pub(crate) fn push(&mut self, item: T) -> Result<(), AllocError>
        ensures { OnOk result (self.new ≡ self.old ++ item ∷ []) }
    {
        self.items.reserve(1)?;
        self.items.push_reserved(item);
        Ok(())
    }

    /// How many items there are.
    #[inline(always)]
    pub(crate) fn len(&self) -> usize
        ensures { result ≡ length self.now }
    {
        self.items.as_slice().len()
    }

    /// The place that the next item will have, as 32 bits hold it.
    #[inline(always)]
    pub(crate) fn place_behind(&self) -> u32
        ensures { result ≡ place_behind self.now }
    {
        low_32(self.items.as_slice().len())
    }

    /// The items, in order.
    #[inline(always)]
    pub(crate) fn as_slice(&self) -> &[T]
        ensures { result.now ≡ self.now }
    {
        self.items.as_slice()
    }

    /// What new rows allocate by.
    pub(crate) fn allocator(&self) -> Global {
        *self.items.allocator()
    }

    /// Takes the items out. It takes no memory.
    pub(crate) fn take_list(&mut self) -> List<T>
        ensures list { result ≡ self.old }
        ensures none { self.new ≡ [] }
    {
        let alloc = *self.items.allocator();
        List::from_vec(std::mem::replace(&mut self.items, Vec::new(alloc)))
    }

    /// Drops the items, and keeps the memory that they stood in.
    #[inline(always)]
    pub(crate) fn clear(&mut self)
        ensures { self.new ≡ [] }
    {
        self.items.clear();
    }
}

/// The lower 32 bits.
#[inline(always)]
pub(crate) fn low_32(number: usize) -> u32
    ensures { result ≡ number % 2 ^ 32 }
{
    (number % 0x1_0000_0000) as u32
}
