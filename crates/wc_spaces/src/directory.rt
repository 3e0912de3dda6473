//! Which place an identifier has, where it is known how many are to come.

ghost use Rattle.std.specs.Prelude.{◌≡◌};
ghost use Rattle.wc_spaces.specs.Kept.Directory.{slot_in};

use crate::places::{Placed, Places, number_of};
use std::alloc::{AllocError, Global};

/// How many slots there are for each text that is to come: few texts then meet another one in their slot.
const SLOTS_EACH: usize = 8;

/// What a slot holds that no text has: no index of a text.
const FREE: u32 = u32::MAX;

/// The place of each text that has one. The number of a text leads to a slot. The first text of each slot is found
/// there at once, and each other is searched for: no choice of texts makes that slow.
#[derive(Drop)]
pub(crate) struct Directory<'a> {
    // For each slot the index of its text.
    slots: Vec<u32>,
    // The first text of each slot that has one, in the order in which they came.
    firsts: Vec<Placed<'a>>,
    // The texts whose slot another one had when they came, and all texts where there are no slots.
    others: Places<'a>,
}

/// The slot of a number among so many.
#[inline(always)]
fn slot_of(number: u64, count: usize) -> usize
    ensures { result ≡ slot_in number count }
{
    let mixed = number.wrapping_mul(0x9e37_79b9_7f4a_7c15) >> 32;
    (mixed.wrapping_mul(count as u64) >> 32) as usize
}

impl<'a> Directory<'a> {
    ghost use Rattle.std.specs.Prelude.{◌≡◌, ◌<◌, ◌++◌, ◌∷◌, [], ℕ, List, Option, Some, None, IfOk, OnOk, not, is_some};
    ghost use Rattle.std.specs.Prelude.{length, slice_get, slice_set, if◌then◌else◌};
    ghost use Rattle.std.specs.Str.{bytes_eq};
    ghost use Rattle.wc_spaces.specs.Kept.Directory.{slot_in, seen_at, found_in, AreApart};

    /// No text has a place, and there are no slots. It takes no memory.
    pub(crate) fn new(alloc: Global) -> Directory<'a>
        ensures places { (q : List ℕ) → found_in result q ≡ None }
        ensures apart { AreApart result }
    {
        Directory {
            slots: Vec::new(alloc),
            firsts: Vec::new(alloc),
            others: Places::new(alloc),
        }
    }

    /// No text has a place, and there are slots for about so many.
    pub(crate) fn with_room(alloc: Global, count: usize) -> Result<Directory<'a>, AllocError>
        ensures places { IfOk result (λ directory. (q : List ℕ) → found_in directory q ≡ None) }
        ensures apart { IfOk result AreApart }
    {
        let slots = vec![in alloc; FREE; count.saturating_mul(SLOTS_EACH)]?;
        Ok(Directory {
            slots,
            firsts: Vec::new(alloc),
            others: Places::new(alloc),
        })
    }

    /// What the slot of this number leads to, where there are slots: its first text, or none yet.
    #[inline(always)]
    fn seen(&self, number: u64) -> Option<Option<Placed<'a>>>
        ensures { result ≡ seen_at self.now.firsts.items
            (slice_get self.now.slots.items (slot_in number (length self.now.slots.items))) }
    {
        match self.slots.get(slot_of(number, self.slots.len())) {
            Some(index) => Some(self.firsts.get(*index as usize).copied()),
            None => None,
        }
    }

    /// The place of a text. It takes no memory.
    #[inline(always)]
    pub(crate) fn place(&self, text: &[u8]) -> Option<u32>
        ensures { result ≡ found_in self.now text.now }
    {
        let number = number_of(text);
        match self.seen(number) {
            Some(Some(first)) if first.text == text => Some(first.place),
            _ => self.others.place_by(number, text),
        }
    }

    /// From here on the slot of this number, which no text has, is that of this text with this place. The error is want
    /// of memory: from then on the directory is good for nothing but to be dropped.
    fn settle(&mut self, number: u64, text: &'a [u8], place: u32) -> Result<(), AllocError>
        ensures slots { OnOk result (self.new.slots.items ≡ slice_set self.old.slots.items
            (slot_in number (length self.old.slots.items)) (length self.old.firsts.items)) }
        ensures firsts { OnOk result (self.new.firsts.items
            ≡ self.old.firsts.items ++ record { text = text.entry; place = place } ∷ []) }
        ensures others { OnOk result (self.new.others ≡ self.old.others) }
    {
        let index = self.firsts.len();
        if index >= FREE as usize {
            return Err(AllocError);
        }
        self.firsts.push(Placed { text, place })?;
        let slot = slot_of(number, self.slots.len());
        if let Some(held) = self.slots.get_mut(slot) {
            *held = index as u32;
        }
        Ok(())
    }

    /// From here on the text has this place, unless it has one. Tells whether it had none. The error is want of memory:
    /// from then on the directory is good for nothing but to be dropped.
    pub(crate) fn add(&mut self, text: &'a [u8], place: u32) -> Result<bool, AllocError>
        ensures is_new { AreApart self.old
            → IfOk result (λ is_new. is_new ≡ not (is_some (found_in self.old text.now))) }
        ensures ok { AreApart self.old → OnOk result ((q : List ℕ) → found_in self.new q
            ≡ (if is_some (found_in self.old q) then found_in self.old q
            else if bytes_eq text.now q then Some place else None)) }
        ensures apart { AreApart self.old → OnOk result (AreApart self.new) }
    {
        let number = number_of(text);
        match self.seen(number) {
            None => {
                let is_new = self.others.add(text, place)?;
                Ok(is_new)
            }
            Some(None) => {
                self.settle(number, text, place)?;
                Ok(true)
            }
            Some(Some(first)) => {
                if first.text == text {
                    return Ok(false);
                }
                let is_new = self.others.add(text, place)?;
                Ok(is_new)
            }
        }
    }
}
