//! Names in a row.

ghost use Rattle.std.specs.Prelude.{◌≡◌, ◌+◌, ◌≤◌, [], ◌∷◌, ◌++◌, OnOk, OnErr, length, vec_len, vec_capacity};
ghost use Rattle.std.specs.Iterator.{YieldsFirstRef, item_count};
ghost use Rattle.std.specs.Str.{IsUtf8};

use crate::sizes::{SizeRefs, Sizes};
use std::alloc::{AllocError, Global};
use std::marker::Model;
use wc_body::TryClone;

/// Names (Core 1.0, 2.2.4 and 5.2.4), in order. A contract sees the bytes of each, which are UTF-8. They stand in one
/// row, so that a great many names take little memory and time.
#[derive(Drop)]
pub struct Names {
    bytes: Vec<u8>,
    // Of each name: how many bytes it has.
    sizes: Sizes,
}

impl Model for Names {
    ghost use Rattle.std.specs.Prelude.{ℕ, List as Seq};
    ghost use Rattle.wc_ast.specs.Kept.NameRow.{names_at, AreNames};

    ghost Value = { Seq (Seq ℕ) };

    ghost view = { λ row. names_at row.sizes row.bytes.items };

    ghost invariant = { λ row. AreNames row.sizes row.bytes.items };
}

impl Names {
    /// No names. It takes no memory.
    pub(crate) fn new(alloc: Global) -> Names
        ensures { result ≡ [] }
    {
        Names {
            bytes: Vec::new(alloc),
            sizes: Sizes::new(alloc),
        }
    }

    /// Adds a name at the end. The error is want of memory, and then the row is as it was.
    #[inline(always)]
    pub(crate) fn push(&mut self, name: &str) -> Result<(), AllocError>
        ensures ok { OnOk result (self.new ≡ self.old ++ name.now ∷ []) }
        ensures err { OnErr result (self.new ≡ self.old) }
    {
        self.bytes.reserve(name.len())?;
        self.sizes.push(name.len())?;
        append(&mut self.bytes, name);
        Ok(())
    }

    /// Adds two names at the end. The error is want of memory, and then the row is as it was.
    #[inline(always)]
    pub(crate) fn push_two(&mut self, first: &str, second: &str) -> Result<(), AllocError>
        ensures ok { OnOk result (self.new ≡ self.old ++ first.now ∷ second.now ∷ []) }
        ensures err { OnErr result (self.new ≡ self.old) }
    {
        self.bytes.reserve(first.len() + second.len())?;
        self.sizes.push_two(first.len(), second.len())?;
        append(&mut self.bytes, first);
        append(&mut self.bytes, second);
        Ok(())
    }

    /// The names, one by one.
    pub(crate) fn iter(&self) -> NameRefs<'_>
        ensures { result ≡ self.now }
    {
        NameRefs {
            bytes: self.bytes.as_slice(),
            sizes: self.sizes.iter(),
        }
    }
}

impl TryClone for Names {
    fn try_clone(&self) -> Result<Names, AllocError> {
        Ok(Names {
            bytes: Vec::from_slice(*self.bytes.allocator(), self.bytes.as_slice())?,
            sizes: self.sizes.try_clone()?,
        })
    }
}

/// Puts the bytes of this text behind others, for which there is room.
#[inline(always)]
fn append(bytes: &mut Vec<u8>, text: &str)
    requires { vec_len bytes.old + length text.now ≤ vec_capacity bytes.old }
    ensures items { bytes.new.items ≡ bytes.old.items ++ text.now }
    ensures len { vec_len bytes.new ≡ vec_len bytes.old + length text.now }
    ensures room { vec_capacity bytes.old ≤ vec_capacity bytes.new }
{
    let _ = bytes.extend_from_slice(text.as_bytes());
}

/// The names of a row that are left, in order. Taking one takes no memory.
#[derive(Drop)]
pub struct NameRefs<'a> {
    bytes: &'a [u8],
    sizes: SizeRefs<'a>,
}

impl<'a> Model for NameRefs<'a> {
    ghost use Rattle.std.specs.Prelude.{ℕ, List as Seq};
    ghost use Rattle.wc_ast.specs.Kept.NameRow.{names_at, AreNames};

    ghost Value = { Seq (Seq ℕ) };

    ghost view = { λ row. names_at row.sizes row.bytes.now };

    ghost invariant = { λ row. AreNames row.sizes row.bytes.now };
}

impl<'a> Iterator for NameRefs<'a> {
    type Item = &'a str;

    ghost next_gives = { YieldsFirstRef (λ names. names) };

    ghost remaining = { item_count (λ names. names) };

    #[inline(always)]
    fn next(&mut self) -> Option<&'a str> {
        let size = self.sizes.next()?;
        let (name, rest) = self.bytes.split_at(size);
        self.bytes = rest;
        Some(unsafe { str::from_utf8_unchecked(name) })
    }
}
