//! Lists that contracts see as their items.

ghost use Rattle.std.specs.Prelude.{◌≡◌, ◌↔◌, [], ◌∷◌, ◌++◌, length, IsTrue, IfOk, IfErr, OnOk, OnErr};
ghost use Rattle.std.specs.Prelude.{List as Seq};

use std::alloc::{AllocError, AllocFailed, Global};
use std::marker::Model;
use wc_body::TryClone;

/// A vector of the standard (Core 1.0, 2.1): items in order. A contract sees the items alone.
#[derive(Drop)]
pub struct List<T> {
    items: Vec<T>,
}

impl<T> Model for List<T> {
    ghost Value = { Seq T };

    ghost view = { λ list. list.items.items };
}

impl<T> List<T> {
    /// What its memory comes from.
    pub(crate) fn allocator(&self) -> Global {
        *self.items.allocator()
    }

    /// The empty list. It takes no memory.
    pub fn new(alloc: Global) -> List<T>
        ensures { result ≡ [] }
    {
        List {
            items: Vec::new(alloc),
        }
    }

    /// The list of these items. It takes no memory.
    pub fn from_vec(items: Vec<T>) -> List<T>
        ensures { result ≡ items.items }
    {
        List { items }
    }

    /// The items, with the memory that they stand in.
    pub fn into_vec(self) -> Vec<T>
        ensures { result.items ≡ self }
    {
        let List { items } = self;
        items
    }

    /// Adds an item at the end. The error is want of memory: it hands the item back, and the list stays as it was.
    pub fn push(&mut self, item: T) -> Result<(), AllocFailed<T>>
        ensures ok { OnOk result (self.new ≡ self.old ++ item ∷ []) }
        ensures err { OnErr result (self.new ≡ self.old) }
        ensures back { IfErr result (λ failed. failed.value ≡ item) }
    {
        self.items.push(item)
    }

    /// How many items there are.
    pub fn len(&self) -> usize
        ensures { result ≡ length self.now }
    {
        self.items.len()
    }

    /// Whether there is no item.
    pub fn is_empty(&self) -> bool
        ensures { IsTrue result ↔ (self.now ≡ []) }
    {
        self.items.is_empty()
    }

    /// The items, in order.
    pub fn as_slice(&self) -> &[T]
        ensures { result.now ≡ self.now }
    {
        self.items.as_slice()
    }
}

impl<T: Copy> List<T> {
    /// An equal list, its items copied at once. The error is want of memory.
    pub fn try_copy(&self) -> Result<List<T>, AllocError>
        ensures { IfOk result (λ copy. copy ≡ self.now) }
    {
        let items = Vec::from_slice(*self.items.allocator(), self.items.as_slice())?;
        Ok(List { items })
    }
}

impl<T: TryClone + Drop> TryClone for List<T> {
    fn try_clone(&self) -> Result<List<T>, AllocError> {
        let mut items = Vec::with_capacity(*self.items.allocator(), self.items.len())?;
        for item in &self.items {
            items.push(item.try_clone()?)?;
        }
        Ok(List { items })
    }
}
