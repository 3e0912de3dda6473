//! Bodies as fields hold them.

ghost use Rattle.std.specs.Prelude.{◌≡◌, IfOk, option_copied, slice_get};
ghost use Rattle.wc_surface.specs.Kept.Bodies.{lists_in};

use crate::code::TextCode;
use crate::head::{Head, TextBody};
use crate::id::Id;
use crate::instr::Operand;
use crate::rare::Apart;
use crate::trim::trimmed_list;
use crate::type_use::TypeUse;
use std::alloc::{AllocError, Global};
use std::marker::Model;
use wc_ast::List;

/// The lists that instructions name by places. Many bodies have none of them.
#[derive(Drop)]
pub struct BodyLists<'a> {
    pub(crate) heads: List<Head<'a>>,
    pub(crate) uses: List<TypeUse<'a>>,
    pub(crate) ids: List<Id<'a>>,
    pub(crate) labels: List<Operand>,
}

/// These lists in memory for what there is of them: heads or identifiers alone take no memory for the others.
#[derive(Drop)]
pub enum KeptLists<'a> {
    Nothing,
    Heads(Apart<List<Head<'a>>>),
    Ids(Apart<List<Id<'a>>>),
    Several(Apart<BodyLists<'a>>),
}

/// The instructions of a function, of a first value or of an offset (Core 1.0, 6.5.8). A contract sees the body. What
/// it doesn't have takes no memory.
#[derive(Drop)]
pub struct KeptBody<'a> {
    code: TextCode,
    lists: KeptLists<'a>,
}

impl<'a> Model for KeptBody<'a> {
    ghost use Rattle.wc_surface.specs.declared.head.TextBody.{TextBody};
    ghost use Rattle.std.specs.Coded.{codes};
    ghost use Rattle.wc_surface.specs.contracts.code.TextCode as text_code;

    ghost Value = { TextBody };

    ghost coded = { Prim.hlevel (codes, text_code.the_row.coded) };

    ghost use Rattle.wc_surface.specs.Kept.Bodies.{body_with, lists_in};

    ghost view = { λ kept. body_with kept.code (lists_in kept.lists) };
}

impl<'a> KeptBody<'a> {
    ghost use Rattle.wc_surface.specs.Kept.Bodies.{plain_body};

    /// The body of instructions that name nothing by places. It takes no memory.
    #[inline(always)]
    pub(crate) fn of_code(code: TextCode) -> KeptBody<'a>
        ensures { result ≡ plain_body code }
    {
        KeptBody {
            code,
            lists: KeptLists::Nothing,
        }
    }

    /// This body. The error is want of memory.
    pub fn new(alloc: Global, body: TextBody<'a>) -> Result<KeptBody<'a>, AllocError>
        ensures { IfOk result (λ kept. kept ≡ body.entry) }
    {
        let TextBody {
            code,
            heads,
            uses,
            ids,
            labels,
        } = body;
        let lists = BodyLists {
            heads: trimmed_list(heads),
            uses: trimmed_list(uses),
            ids: trimmed_list(ids),
            labels: trimmed_list(labels),
        };
        Ok(KeptBody {
            code,
            lists: kept_lists(alloc, lists)?,
        })
    }

    /// The instructions.
    #[inline(always)]
    pub fn code(&self) -> &TextCode
        ensures { result.now ≡ self.now.code }
    {
        &self.code
    }

    /// The head of this place among those of blocks, loops and ifs.
    #[inline(always)]
    pub fn head(&self, place: u32) -> Option<&Head<'a>>
        ensures { option_copied result ≡ slice_get self.now.heads place }
    {
        match &self.lists {
            KeptLists::Heads(heads) => heads.get().as_slice().get(place as usize),
            KeptLists::Several(lists) => lists.get().heads.as_slice().get(place as usize),
            _ => None,
        }
    }

    /// The type uses, in the order of the text.
    #[inline(always)]
    pub fn uses<'b>(&'b self) -> &'b [TypeUse<'b>]
        ensures { result.now ≡ self.now.uses }
    {
        match &self.lists {
            KeptLists::Several(lists) => uses_of(lists.get()),
            _ => &[],
        }
    }

    /// The identifiers of what instructions name.
    #[inline(always)]
    pub fn ids<'b>(&'b self) -> &'b [Id<'b>]
        ensures { result.now ≡ self.now.ids }
    {
        match &self.lists {
            KeptLists::Ids(ids) => ids_in(ids.get()),
            KeptLists::Several(lists) => ids_in(&lists.get().ids),
            _ => &[],
        }
    }

    /// The labels of each `br_table`, its default last.
    #[inline(always)]
    pub fn labels(&self) -> &[Operand]
        ensures { result.now ≡ self.now.labels }
    {
        match &self.lists {
            KeptLists::Several(lists) => lists.get().labels.as_slice(),
            _ => &[],
        }
    }
}

#[inline(always)]
fn uses_of<'b>(lists: &'b BodyLists<'_>) -> &'b [TypeUse<'b>]
    ensures { result.now ≡ lists.now.uses }
{
    lists.uses.as_slice()
}

#[inline(always)]
fn ids_in<'b>(ids: &'b List<Id<'_>>) -> &'b [Id<'b>]
    ensures { result.now ≡ ids.now }
{
    ids.as_slice()
}

/// These lists where they stand. The error is want of memory.
fn kept_lists<'a>(alloc: Global, lists: BodyLists<'a>) -> Result<KeptLists<'a>, AllocError>
    ensures { IfOk result (λ kept. lists_in kept ≡ lists.entry) }
{
    if !lists.uses.is_empty() || !lists.labels.is_empty() {
        return kept_several(alloc, lists);
    }
    match (lists.heads.is_empty(), lists.ids.is_empty()) {
        (true, true) => Ok(KeptLists::Nothing),
        (false, true) => Ok(KeptLists::Heads(Apart::new(alloc, lists.heads)?)),
        (true, false) => Ok(KeptLists::Ids(Apart::new(alloc, lists.ids)?)),
        (false, false) => kept_several(alloc, lists),
    }
}

fn kept_several<'a>(alloc: Global, lists: BodyLists<'a>) -> Result<KeptLists<'a>, AllocError>
    ensures { IfOk result (λ kept. lists_in kept ≡ lists.entry) }
{
    Ok(KeptLists::Several(Apart::new(alloc, lists)?))
}
