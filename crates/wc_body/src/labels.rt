//! The labels of a `br_table`.

ghost use Rattle.std.specs.Prelude.{◌≡◌, ◌≤◌, ◌^◌, ◌↔◌, ℕ, List as Seq, IfSome, IsNone, length};
ghost use Rattle.std.specs.Iterator.{YieldsFirst, item_count};

use crate::bytes::number::u32_at;
use std::marker::Model;

/// Where labels stand.
#[derive(Clone, Copy)]
pub(crate) enum Items<'a> {
    /// In a row.
    Listed(&'a [u32]),
    /// So many, by their spellings, and whatever follows them.
    Spelled(u32, &'a [u8]),
}

/// Label indices, in order, fewer than `2^32` (Core 1.0, 2.1.3 and 2.4.5). Going over them takes them one by one: a
/// contract sees those that are left.
#[derive(Drop)]
pub struct Labels<'a> {
    items: Items<'a>,
}

impl<'a> Model for Labels<'a> {
    ghost use Rattle.std.specs.Prelude.{ℕ, List as Seq};

    ghost Value = { Seq ℕ };

    ghost use Rattle.wc_body.specs.Reading.LabelItems.{labels_of, AreLabels};

    ghost view = { λ labels. labels_of labels.items };

    ghost invariant = { λ labels. AreLabels labels.items };
}

impl<'a> Labels<'a> {
    ghost use Rattle.std.specs.Prelude.{nat_lt};
    ghost use Rattle.std.specs.List.{list_any};
    ghost use Rattle.wc_body.specs.Reading.LabelItems.{labels_of, AreLabels};

    /// These labels, or none where there are `2^32` or more.
    pub fn of(items: &'a [u32]) -> Option<Labels<'a>>
        ensures labels { IfSome result (λ labels. labels ≡ items.now) }
        ensures none { IsNone result ↔ (2 ^ 32 ≤ length items.now) }
    {
        if items.len() > u32::MAX as usize {
            return None;
        }
        Some(Labels {
            items: Items::Listed(items),
        })
    }

    /// How many there are.
    pub fn len(&self) -> u32
        ensures { result ≡ length self.now }
    {
        match self.items {
            Items::Listed(items) => items.len() as u32,
            Items::Spelled(count, _) => count,
        }
    }

    /// Whether any of those that are left is above this number of enclosing blocks: that label itself is the body's
    /// own and is in reach (Core 1.0, 3.3.5.8).
    pub fn any_above(mut self, enclosing: usize) -> bool
        ensures { result ≡ list_any (λ n. nat_lt enclosing n) self.entry }
    {
        self.any(|n| enclosing < n as usize)
    }

    /// The same labels, while these stay as they are.
    pub(crate) fn again(&self) -> Labels<'a>
        ensures { result ≡ self.now }
    {
        Labels { items: self.items }
    }

    pub(crate) fn from_items(items: Items<'a>) -> Labels<'a>
        requires { AreLabels items }
        ensures { result ≡ labels_of items.entry }
    {
        Labels { items }
    }
}

impl<'a> Iterator for Labels<'a> {
    type Item = u32;

    ghost next_gives = { YieldsFirst (λ labels. labels) };

    ghost remaining = { item_count (λ labels. labels) };

    fn next(&mut self) -> Option<u32> {
        match self.items {
            Items::Listed(items) => {
                let (first, rest) = items.split_first()?;
                self.items = Items::Listed(rest);
                Some(*first)
            }
            Items::Spelled(count, bytes) => {
                if count == 0 {
                    return None;
                }
                let (first, rest) = u32_at(bytes)?;
                self.items = Items::Spelled(count - 1, rest);
                Some(first)
            }
        }
    }
}
