//! The list of types.

ghost use Rattle.std.specs.Prelude.{◌≡◌};

use crate::places::Places;
use std::alloc::{AllocError, Global};

/// The list of types (Core 1.0, 6.6.13), found by value. Each type is told by its key, a row of bytes that no other
/// type has and that the caller lends, so that no key is copied. A contract speaks of the list of keys.
#[derive(Drop)]
pub struct Types<'a> {
    keys: Vec<&'a [u8]>,
    // Of each key its first place.
    places: Places<'a>,
}

impl<'a> Types<'a> {
    ghost use Rattle.std.specs.Prelude.{◌≡◌, ◌<◌, ◌+◌, ◌^◌, ◌≤◌, ℕ, List, [], ◌∷◌, ◌++◌, Some};
    ghost use Rattle.std.specs.Prelude.{IfOk, OnOk, map, slice_get};
    ghost use Rattle.wc_spaces.specs.Kept.Types.{AreTypes, count_of};
    ghost use Rattle.wc_spaces.specs.Kept.Places.{text_of};
    ghost use Rattle.wc_spaces.specs.Standard.Types.{index_of, with_type};

    /// No type. It takes no memory.
    pub fn new(alloc: Global) -> Types<'a>
        ensures types { AreTypes [] result }
        ensures count { count_of result ≡ 0 }
    {
        Types {
            keys: Vec::new(alloc),
            places: Places::new(alloc),
        }
    }

    /// One more type, at the end, whether it stands in the list or not. The error is want of memory: from then on the
    /// list is good for nothing but to be dropped.
    pub fn add(&mut self, key: &'a [u8]) -> Result<(), AllocError>
        requires { count_of self.old < 2 ^ 32 }
        ensures types { (ts : List (List ℕ)) → AreTypes ts self.old
            → OnOk result (AreTypes (ts ++ key.now ∷ []) self.new) }
        ensures count { OnOk result (count_of self.new ≡ count_of self.old + 1) }
    {
        let place = self.keys.len() as u32;
        let _ = self.places.add(key, place)?;
        self.keys.push(key)?;
        Ok(())
    }

    /// The smallest index of the type. Where it isn't in the list, it is added at the end. The error is want of memory:
    /// from then on the list is good for nothing but to be dropped.
    pub fn find_or_add(&mut self, key: &'a [u8]) -> Result<u32, AllocError>
        requires { count_of self.old < 2 ^ 32 }
        ensures types { (ts : List (List ℕ)) → AreTypes ts self.old
            → OnOk result (AreTypes (with_type ts key.now) self.new) }
        ensures place { (ts : List (List ℕ)) → AreTypes ts self.old
            → IfOk result (λ place. index_of key.now (with_type ts key.now) ≡ Some place) }
        ensures count { OnOk result (count_of self.new ≤ count_of self.old + 1) }
    {
        match self.places.place(key) {
            Some(place) => Ok(place),
            None => {
                let place = self.keys.len() as u32;
                self.add(key)?;
                Ok(place)
            }
        }
    }

    /// The smallest index of the type, if it is in the list. It takes no memory.
    pub fn find(&self, key: &[u8]) -> Option<u32>
        ensures { (ts : List (List ℕ)) → AreTypes ts self.now → result ≡ index_of key.now ts }
    {
        self.places.place(key)
    }

    /// The key of the type of this index. It takes no memory.
    pub fn at(&self, index: u32) -> Option<&'a [u8]>
        ensures { (ts : List (List ℕ)) → AreTypes ts self.now → text_of result ≡ slice_get ts index }
    {
        match self.keys.get(index as usize) {
            Some(key) => Some(*key),
            None => None,
        }
    }

    /// The keys of all types, in order. It takes no memory.
    pub fn keys(&self) -> &[&'a [u8]]
        ensures { (ts : List (List ℕ)) → AreTypes ts self.now → map (λ key. key.now) result.now ≡ ts }
    {
        self.keys.as_slice()
    }

    /// How many there are. It takes no memory.
    pub fn len(&self) -> usize
        ensures { result ≡ count_of self.now }
    {
        self.keys.len()
    }
}
