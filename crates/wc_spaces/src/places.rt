//! Which place a text has.

ghost use Rattle.std.specs.Prelude.{◌≡◌, Some, IsSome};
ghost use Rattle.std.specs.BTreeMap.{get, Updates};
ghost use Rattle.std.specs.Ordering.{nat_cmp};
ghost use Rattle.wc_spaces.specs.Kept.Places.{number_in};

use std::alloc::{AllocError, Global};
use std::collections::BTreeMap;

/// A text, and its place.
#[derive(Clone, Copy)]
pub(crate) struct Placed<'a> {
    pub text: &'a [u8],
    pub place: u32,
}

/// The place of each text that has one. A search compares the numbers of texts, and texts only where two have one
/// number: no choice of texts makes it slow.
#[derive(Drop)]
pub struct Places<'a> {
    // For each number that some text has, one such text.
    firsts: BTreeMap<u64, Placed<'a>>,
    // The texts whose number stood for another one when they came.
    others: BTreeMap<&'a [u8], u32>,
}

/// The number of a text. Two texts that nobody chose for it hardly ever have the same.
#[inline(always)]
pub(crate) fn number_of(text: &[u8]) -> u64
    ensures { result ≡ number_in text.now }
{
    let mut number = 0u64;
    for byte in text {
        number = number
            .wrapping_mul(0x9e37_79b9_7f4a_7c15)
            .wrapping_add(u64::from(*byte));
    }
    number
}

/// From here on the number, which some text has, stands for this one. It takes no memory.
fn put_back<'a>(firsts: &mut BTreeMap<u64, Placed<'a>>, number: u64, first: Placed<'a>)
    ensures { IsSome (get nat_cmp firsts.old number) → Updates nat_cmp firsts.old firsts.new number (Some first.entry) }
{
    match firsts.insert(number, first) {
        Ok(_) => {}
        Err(_) => {}
    }
}

impl<'a> Places<'a> {
    ghost use Rattle.std.specs.Prelude.{◌≡◌, ℕ, List, Some, None, IfOk, OnOk, OnErr, not, true, is_some, if◌then◌else◌};
    ghost use Rattle.std.specs.Str.{bytes_eq};
    ghost use Rattle.wc_spaces.specs.Kept.Places.{number_in, place_in, IsBeside};

    /// No text has a place. It takes no memory.
    pub fn new(alloc: Global) -> Places<'a>
        ensures { (q : List ℕ) → place_in result q ≡ None }
    {
        Places {
            firsts: BTreeMap::new(alloc),
            others: BTreeMap::new(alloc),
        }
    }

    /// The place of a text, whose number this is. It takes no memory.
    #[inline(always)]
    pub(crate) fn place_by(&self, number: u64, text: &[u8]) -> Option<u32>
        ensures { number ≡ number_in text.now → result ≡ place_in self.now text.now }
    {
        match self.firsts.get(&number) {
            Some(first) if first.text == text => Some(first.place),
            _ => self.others.get(text).copied(),
        }
    }

    /// The place of a text. It takes no memory.
    #[inline(always)]
    pub fn place(&self, text: &[u8]) -> Option<u32>
        ensures { result ≡ place_in self.now text.now }
    {
        self.place_by(number_of(text), text)
    }

    /// From here on the text, whose number stands for no text or for another one, has this place. Tells the one that it
    /// had. The error is want of memory, which only a text without a place can meet: all stays as it was.
    fn put_among(&mut self, text: &'a [u8], place: u32) -> Result<Option<u32>, AllocError>
        ensures old { IsBeside text.now self.old → IfOk result (λ old. old ≡ place_in self.old text.now) }
        ensures ok { IsBeside text.now self.old → OnOk result ((q : List ℕ) → place_in self.new q
            ≡ (if bytes_eq text.now q then Some place else place_in self.old q)) }
        ensures absent { IsBeside text.now self.old → OnErr result (place_in self.old text.now ≡ None) }
        ensures err { OnErr result ((q : List ℕ) → place_in self.new q ≡ place_in self.old q) }
    {
        match self.others.insert(text, place) {
            Ok(old) => Ok(old),
            Err(_) => Err(AllocError),
        }
    }

    /// From here on the text has this place. Tells the one that it had. The error is want of memory, which only a text
    /// without a place can meet: all stays as it was.
    pub(crate) fn replace(&mut self, text: &'a [u8], place: u32) -> Result<Option<u32>, AllocError>
        ensures old { IfOk result (λ old. old ≡ place_in self.old text.now) }
        ensures ok { OnOk result ((q : List ℕ) → place_in self.new q
            ≡ (if bytes_eq text.now q then Some place else place_in self.old q)) }
        ensures absent { OnErr result (place_in self.old text.now ≡ None) }
        ensures err { OnErr result ((q : List ℕ) → place_in self.new q ≡ place_in self.old q) }
    {
        let number = number_of(text);
        match self.firsts.insert(number, Placed { text, place }) {
            Ok(None) => Ok(self.others.get(text).copied()),
            Ok(Some(first)) => {
                if first.text == text {
                    return Ok(Some(first.place));
                }
                put_back(&mut self.firsts, number, first);
                match self.put_among(text, place) {
                    Ok(old) => Ok(old),
                    Err(fault) => Err(fault),
                }
            }
            Err(_) => match self.put_among(text, place) {
                Ok(old) => Ok(old),
                Err(fault) => Err(fault),
            },
        }
    }

    /// From here on the text has this place. The error is want of memory, which only a text without a place can meet:
    /// all stays as it was.
    pub fn put(&mut self, text: &'a [u8], place: u32) -> Result<(), AllocError>
        ensures ok { OnOk result ((q : List ℕ) → place_in self.new q
            ≡ (if bytes_eq text.now q then Some place else place_in self.old q)) }
        ensures absent { OnErr result (place_in self.old text.now ≡ None) }
        ensures err { OnErr result ((q : List ℕ) → place_in self.new q ≡ place_in self.old q) }
    {
        match self.replace(text, place) {
            Ok(_) => Ok(()),
            Err(fault) => Err(fault),
        }
    }

    /// From here on the text, which has a place, has this one. It takes no memory.
    pub(crate) fn put_again(&mut self, text: &'a [u8], place: u32)
        ensures { is_some (place_in self.old text.now) ≡ true → (q : List ℕ) → place_in self.new q
            ≡ (if bytes_eq text.now q then Some place else place_in self.old q) }
    {
        match self.put(text, place) {
            Ok(()) => {}
            Err(_) => {}
        }
    }

    /// From here on the text has no place. It takes no memory.
    pub fn remove(&mut self, text: &[u8])
        ensures { (q : List ℕ) → place_in self.new q ≡ (if bytes_eq text.now q then None else place_in self.old q) }
    {
        let _ = self.others.remove(text);
        let number = number_of(text);
        match self.firsts.get(&number) {
            None => {}
            Some(first) => {
                if first.text == text {
                    let _ = self.firsts.remove(&number);
                }
            }
        }
    }

    /// From here on the text has this place, unless it has one. Tells whether it had none. The error is want of memory:
    /// all stays as it was.
    pub fn add(&mut self, text: &'a [u8], place: u32) -> Result<bool, AllocError>
        ensures is_new { IfOk result (λ is_new. is_new ≡ not (is_some (place_in self.old text.now))) }
        ensures ok { OnOk result ((q : List ℕ) → place_in self.new q
            ≡ (if is_some (place_in self.old q) then place_in self.old q
            else if bytes_eq text.now q then Some place else None)) }
        ensures err { OnErr result ((q : List ℕ) → place_in self.new q ≡ place_in self.old q) }
    {
        match self.replace(text, place) {
            Ok(None) => Ok(true),
            Ok(Some(first)) => {
                // It stands there already, so this takes no memory.
                self.put(text, first)?;
                Ok(false)
            }
            Err(fault) => Err(fault),
        }
    }
}
