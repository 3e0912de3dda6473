//! Values in memory of their own.

ghost use Rattle.std.specs.Prelude.{◌≡◌, None, Some, IfOk, option_copied};

use std::alloc::{AllocError, Global};
use std::marker::Model;
use wc_ast::List;

/// A value that stands in memory of its own. A contract sees the value.
#[derive(Drop)]
pub struct Apart<T> {
    place: Box<T>,
}

impl<T> Model for Apart<T> {
    ghost Value = { T };

    ghost view = { λ apart. apart.place.value };
}

impl<T: Drop> Apart<T> {
    /// This value. The error is want of memory.
    #[inline(always)]
    pub fn new(alloc: Global, value: T) -> Result<Apart<T>, AllocError>
        ensures { IfOk result (λ apart. apart ≡ value) }
    {
        Ok(Apart {
            place: Box::new(alloc, value)?,
        })
    }
}

impl<T> Apart<T> {
    /// The value.
    #[inline(always)]
    pub fn get(&self) -> &T
        ensures { result.now ≡ self.now }
    {
        &*self.place
    }
}

/// A value that seldom is there: it stands in memory of its own, and where there is none, it takes no memory. A
/// contract sees the value, if any.
#[derive(Drop)]
pub struct Rare<T> {
    place: Option<Box<T>>,
}

impl<T> Model for Rare<T> {
    ghost use Rattle.std.specs.Prelude.{Option};
    ghost use Rattle.wc_surface.specs.Kept.Rare.{value_in};

    ghost Value = { Option T };

    ghost view = { λ rare. value_in rare.place };
}

impl<T> Rare<T> {
    /// No value. It takes no memory.
    #[inline(always)]
    pub fn none() -> Rare<T>
        ensures { result ≡ None }
    {
        Rare { place: None }
    }

    /// The value, if any.
    #[inline(always)]
    pub fn get(&self) -> Option<&T>
        ensures value { option_copied result ≡ self.now }
    {
        match &self.place {
            None => None,
            Some(place) => Some(&**place),
        }
    }
}

impl<T: Drop> Rare<T> {
    /// This value. The error is want of memory.
    pub fn some(alloc: Global, value: T) -> Result<Rare<T>, AllocError>
        ensures { IfOk result (λ rare. rare ≡ Some value) }
    {
        Ok(Rare {
            place: Some(Box::new(alloc, value)?),
        })
    }

    /// This value, or none. The error is want of memory.
    pub fn of(alloc: Global, value: Option<T>) -> Result<Rare<T>, AllocError>
        ensures { IfOk result (λ rare. rare ≡ value) }
    {
        match value {
            None => Ok(Rare::none()),
            Some(value) => Rare::some(alloc, value),
        }
    }
}

/// A list that seldom has items: it stands in memory of its own, and where it has none, it takes no memory. A contract
/// sees the items.
#[derive(Drop)]
pub struct RareList<T> {
    list: Rare<List<T>>,
}

impl<T> Model for RareList<T> {
    ghost use Rattle.std.specs.Prelude.{List};
    ghost use Rattle.wc_surface.specs.Kept.Rare.{items_in};

    ghost Value = { List T };

    ghost view = { λ rare. items_in rare.list };
}

impl<T> RareList<T> {
    /// The items, in order.
    #[inline(always)]
    pub fn as_slice(&self) -> &[T]
        ensures { result.now ≡ self.now }
    {
        match self.list.get() {
            None => &[],
            Some(list) => list.as_slice(),
        }
    }
}

impl<T: Drop> RareList<T> {
    /// This list. The error is want of memory.
    pub fn of(alloc: Global, list: List<T>) -> Result<RareList<T>, AllocError>
        ensures { IfOk result (λ rare. rare ≡ list) }
    {
        if list.is_empty() {
            return Ok(RareList { list: Rare::none() });
        }
        Ok(RareList {
            list: Rare::some(alloc, list)?,
        })
    }
}
