//! Sizes in a row, most of them small.

ghost use Rattle.std.specs.Prelude.{◌≡◌, ◌+◌, ◌<◌, ◌≤◌, [], ◌∷◌, ◌++◌, OnOk, OnErr, vec_len, vec_capacity};
ghost use Rattle.std.specs.Iterator.{YieldsFirst, item_count};
ghost use Rattle.wc_ast.specs.Kept.SizeRow.{large_mark, mark_of, large_of};

use std::alloc::{AllocError, Global};
use std::marker::Model;
use wc_body::TryClone;

/// The mark of a size that has no mark of its own.
const LARGE: u8 = 255;

/// Sizes, in order. A contract sees each. A small one takes a byte.
#[derive(Drop)]
pub struct Sizes {
    // Of each size: itself where it is below `LARGE`, and else `LARGE`.
    marks: Vec<u8>,
    // The sizes that are not below `LARGE`, in order.
    large: Vec<usize>,
}

impl Model for Sizes {
    ghost use Rattle.std.specs.Prelude.{ℕ, List as Seq};
    ghost use Rattle.wc_ast.specs.Kept.SizeRow.{sizes_at, AreSizes};

    ghost Value = { Seq ℕ };

    ghost view = { λ row. sizes_at row.marks.items row.large.items };

    ghost invariant = { λ row. AreSizes row.marks.items row.large.items };
}

impl Sizes {
    /// No sizes. It takes no memory.
    pub(crate) fn new(alloc: Global) -> Sizes
        ensures { result ≡ [] }
    {
        Sizes {
            marks: Vec::new(alloc),
            large: Vec::new(alloc),
        }
    }

    /// Adds a size at the end. The error is want of memory, and then the row is as it was.
    #[inline(always)]
    pub(crate) fn push(&mut self, size: usize) -> Result<(), AllocError>
        ensures ok { OnOk result (self.new ≡ self.old ++ size ∷ []) }
        ensures err { OnErr result (self.new ≡ self.old) }
    {
        self.marks.reserve(1)?;
        reserve_large(&mut self.large, size, size)?;
        put(&mut self.marks, &mut self.large, size);
        Ok(())
    }

    /// Adds two sizes at the end. The error is want of memory, and then the row is as it was.
    #[inline(always)]
    pub(crate) fn push_two(&mut self, first: usize, second: usize) -> Result<(), AllocError>
        ensures ok { OnOk result (self.new ≡ self.old ++ first ∷ second ∷ []) }
        ensures err { OnErr result (self.new ≡ self.old) }
    {
        self.marks.reserve(2)?;
        reserve_large(&mut self.large, first, second)?;
        put(&mut self.marks, &mut self.large, first);
        put(&mut self.marks, &mut self.large, second);
        Ok(())
    }

    /// The sizes, one by one.
    pub(crate) fn iter(&self) -> SizeRefs<'_>
        ensures { result ≡ self.now }
    {
        SizeRefs {
            marks: self.marks.as_slice(),
            large: self.large.as_slice(),
        }
    }
}

impl TryClone for Sizes {
    fn try_clone(&self) -> Result<Sizes, AllocError> {
        let alloc = *self.marks.allocator();
        Ok(Sizes {
            marks: Vec::from_slice(alloc, self.marks.as_slice())?,
            large: Vec::from_slice(alloc, self.large.as_slice())?,
        })
    }
}

/// Makes room for two large sizes where one of these is large.
#[inline(always)]
fn reserve_large(large: &mut Vec<usize>, first: usize, second: usize) -> Result<(), AllocError>
    ensures items { large.new.items ≡ large.old.items }
    ensures first { OnOk result (large_mark ≤ first → vec_len large.new + 2 ≤ vec_capacity large.new) }
    ensures second { OnOk result (large_mark ≤ second → vec_len large.new + 2 ≤ vec_capacity large.new) }
{
    if first >= LARGE as usize || second >= LARGE as usize {
        large.reserve(2)?;
    }
    Ok(())
}

/// Puts a size behind others, for which there is room.
#[inline(always)]
fn put(marks: &mut Vec<u8>, large: &mut Vec<usize>, size: usize)
    requires marks { vec_len marks.old < vec_capacity marks.old }
    requires large { large_mark ≤ size → vec_len large.old < vec_capacity large.old }
    ensures marks { marks.new.items ≡ marks.old.items ++ mark_of size ∷ [] }
    ensures marks_room { vec_capacity marks.new ≡ vec_capacity marks.old }
    ensures marks_len { vec_len marks.new ≡ vec_len marks.old + 1 }
    ensures large { large.new.items ≡ large.old.items ++ large_of size }
    ensures large_room { vec_capacity large.new ≡ vec_capacity large.old }
    ensures large_len { vec_len large.new ≤ vec_len large.old + 1 }
{
    if size < LARGE as usize {
        marks.push_reserved(size as u8);
    } else {
        marks.push_reserved(LARGE);
        large.push_reserved(size);
    }
}

/// The sizes of a row that are left, in order.
#[derive(Drop)]
pub struct SizeRefs<'a> {
    marks: &'a [u8],
    large: &'a [usize],
}

impl<'a> Model for SizeRefs<'a> {
    ghost use Rattle.std.specs.Prelude.{ℕ, List as Seq};
    ghost use Rattle.wc_ast.specs.Kept.SizeRow.{sizes_at, AreSizes};

    ghost Value = { Seq ℕ };

    ghost view = { λ row. sizes_at row.marks.now row.large.now };

    ghost invariant = { λ row. AreSizes row.marks.now row.large.now };
}

impl<'a> Iterator for SizeRefs<'a> {
    type Item = usize;

    ghost next_gives = { YieldsFirst (λ sizes. sizes) };

    ghost remaining = { item_count (λ sizes. sizes) };

    #[inline(always)]
    fn next(&mut self) -> Option<usize> {
        let (mark, marks) = self.marks.split_first()?;
        if *mark < LARGE {
            self.marks = marks;
            return Some(*mark as usize);
        }
        let (size, large) = self.large.split_first()?;
        self.marks = marks;
        self.large = large;
        Some(*size)
    }
}
