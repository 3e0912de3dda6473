//! Labels of the blocks that are open.

ghost use Rattle.std.specs.Prelude.{◌≡◌, ℕ, List, Some, IfOk, OnOk, if◌then◌else◌};
ghost use Rattle.wc_spaces.specs.Kept.Labels.{hidden_in, IsNamedIn};
ghost use Rattle.wc_spaces.specs.Kept.Places.{place_in, text_of};
ghost use Rattle.wc_spaces.specs.Standard.Spaces.{is_named};

use crate::places::Places;
use std::alloc::{AllocError, Global};

/// A block that is open: its label, and the height of the one that the label hides.
#[derive(Clone, Copy)]
pub(crate) struct Open<'a> {
    pub label: Option<&'a [u8]>,
    pub hidden: Option<u32>,
}

/// The labels of the blocks that are open (Core 1.0, 6.5.1). A contract speaks of the list of them, the innermost
/// first, each with its identifier or with none. Of two with one identifier the inner one has it. Each call takes the
/// time of a search or two, however many are open and however many have one identifier.
#[derive(Drop)]
pub struct Labels<'a> {
    // Of each identifier the height of the innermost that has it: how many enclose that.
    heights: Places<'a>,
    // The outermost first.
    open: Vec<Open<'a>>,
}

/// From here on the label stands at this height. The answer is the height of the one that it hides.
#[inline(always)]
fn hide<'a>(
    heights: &mut Places<'a>,
    label: Option<&'a [u8]>,
    height: u32,
) -> Result<Option<u32>, AllocError>
    ensures hidden { IfOk result (λ hidden. hidden ≡ hidden_in heights.old (text_of label.entry)) }
    ensures heights { OnOk result ((q : List ℕ) → place_in heights.new q
        ≡ (if is_named q (text_of label.entry) then Some height else place_in heights.old q)) }
{
    match label {
        None => Ok(None),
        Some(text) => heights.replace(text, height),
    }
}

/// What the label hid stands at its height again.
#[inline(always)]
fn show<'a>(heights: &mut Places<'a>, ended: Open<'a>)
    ensures { IsNamedIn heights.old (text_of ended.entry.label) → (q : List ℕ) → place_in heights.new q
        ≡ (if is_named q (text_of ended.entry.label) then ended.entry.hidden else place_in heights.old q) }
{
    match (ended.label, ended.hidden) {
        (None, _) => {}
        (Some(text), None) => heights.remove(text),
        (Some(text), Some(height)) => heights.put_again(text, height),
    }
}

impl<'a> Labels<'a> {
    ghost use Rattle.std.specs.Prelude.{◌≡◌, ◌<◌, ◌+◌, ◌-◌, ◌^◌, ℕ, List, Option, [], ◌∷◌, OnOk};
    ghost use Rattle.wc_spaces.specs.Kept.Labels.{IsLabels, depth_of};
    ghost use Rattle.wc_spaces.specs.Kept.Places.{text_of};
    ghost use Rattle.wc_spaces.specs.Standard.Spaces.{place_of};

    /// None is open. It takes no memory.
    pub fn new(alloc: Global) -> Labels<'a>
        ensures labels { IsLabels [] result }
        ensures depth { depth_of result ≡ 0 }
    {
        Labels {
            heights: Places::new(alloc),
            open: Vec::new(alloc),
        }
    }

    /// One more is open, inside all others. The error is want of memory: from then on the labels are good for nothing
    /// but to be dropped.
    pub fn enter(&mut self, label: Option<&'a [u8]>) -> Result<(), AllocError>
        requires { depth_of self.old < 2 ^ 32 }
        ensures labels { (ls : List (Option (List ℕ))) → IsLabels ls self.old
            → OnOk result (IsLabels (text_of label.entry ∷ ls) self.new) }
        ensures depth { OnOk result (depth_of self.new ≡ depth_of self.old + 1) }
    {
        let height = self.open.len() as u32;
        let hidden = hide(&mut self.heights, label, height)?;
        self.open.push(Open { label, hidden })?;
        Ok(())
    }

    /// The innermost ends, and what it hid is seen again. Where none is open, nothing changes. It takes no memory.
    pub fn leave(&mut self)
        ensures labels { (l : Option (List ℕ)) (ls : List (Option (List ℕ)))
            → IsLabels (l ∷ ls) self.old → IsLabels ls self.new }
        ensures none { IsLabels [] self.old → IsLabels [] self.new }
        ensures depth { depth_of self.new ≡ depth_of self.old - 1 }
    {
        match self.open.pop() {
            Some(ended) => show(&mut self.heights, ended),
            None => {}
        }
    }

    /// How many stand inside the innermost that has this identifier. It takes no memory.
    #[inline(always)]
    pub fn place(&self, text: &[u8]) -> Option<u32>
        requires { depth_of self.now < 2 ^ 32 }
        ensures { (ls : List (Option (List ℕ))) → IsLabels ls self.now → result ≡ place_of text.now ls }
    {
        match self.heights.place(text) {
            Some(height) => Some(
                (self.open.len() as u32)
                    .saturating_sub(1)
                    .saturating_sub(height),
            ),
            None => None,
        }
    }

    /// How many are open. It takes no memory.
    #[inline(always)]
    pub fn len(&self) -> usize
        ensures { result ≡ depth_of self.now }
    {
        self.open.len()
    }
}
