//! The parts that few functions have.

ghost use Rattle.std.specs.Prelude.{◌≡◌, IfOk, option_copied};
ghost use Rattle.wc_surface.specs.Kept.Parts.{parts_in, spread, more_in, alone, more_with};

use crate::field::ImportNames;
use crate::id::{Id, Index};
use crate::local::{LocalsRef, TextLocals};
use crate::rare::{Apart, Rare};
use crate::text_name::TextName;
use crate::type_use::ParamName;
use crate::use_ref::index_again;
use std::alloc::{AllocError, Global};
use wc_ast::List;

/// The parts that few functions have: an identifier, inline exports, locals, a type behind `type` that is an
/// identifier, identifiers of parameters, and the names of an import.
#[derive(Drop)]
pub struct FuncParts<'a> {
    pub(crate) id: Option<Id<'a>>,
    pub(crate) exports: List<TextName<'a>>,
    pub(crate) locals: TextLocals<'a>,
    pub(crate) index: Option<Index<'a>>,
    pub(crate) names: List<ParamName<'a>>,
    pub(crate) import: Option<ImportNames<'a>>,
}

/// The last three of these, which the fewest functions have.
#[derive(Drop)]
pub struct FuncMore<'a> {
    pub(crate) index: Option<Index<'a>>,
    pub(crate) names: List<ParamName<'a>>,
    pub(crate) import: Rare<ImportNames<'a>>,
}

/// All of them, where a function has several, or one that isn't kept alone.
#[derive(Drop)]
pub struct FuncRest<'a> {
    pub(crate) id: Option<Id<'a>>,
    pub(crate) exports: List<TextName<'a>>,
    pub(crate) locals: TextLocals<'a>,
    pub(crate) more: Rare<FuncMore<'a>>,
}

/// These parts in memory for what there is of them: an identifier, a named type or an import alone takes no memory for
/// the others.
#[derive(Drop)]
pub enum KeptParts<'a> {
    Nothing,
    Id(Apart<Id<'a>>),
    Index(Apart<Index<'a>>),
    Import(Apart<ImportNames<'a>>),
    Several(Apart<FuncRest<'a>>),
}

impl<'a> KeptParts<'a> {
    /// These parts. The error is want of memory.
    #[inline(always)]
    pub(crate) fn new(alloc: Global, parts: FuncParts<'a>) -> Result<KeptParts<'a>, AllocError>
        ensures { IfOk result (λ kept. parts_in kept ≡ parts.entry) }
    {
        let is_alone = parts.exports.is_empty()
            && parts.locals.groups().is_empty()
            && parts.names.is_empty();
        if is_alone {
            kept_alone(alloc, parts.id, parts.index, parts.import)
        } else {
            kept_several(alloc, parts)
        }
    }

    /// The identifier.
    #[inline(always)]
    pub(crate) fn id(&self) -> Option<&Id<'a>>
        ensures { option_copied result ≡ (parts_in self.now).id }
    {
        match self {
            KeptParts::Id(id) => Some(id.get()),
            KeptParts::Several(rest) => rest.get().id.as_ref(),
            _ => None,
        }
    }

    /// The names of inline exports.
    #[inline(always)]
    pub(crate) fn exports(&self) -> &[TextName<'a>]
        ensures { result.now ≡ (parts_in self.now).exports }
    {
        match self {
            KeptParts::Several(rest) => rest.get().exports.as_slice(),
            _ => &[],
        }
    }

    /// The locals.
    #[inline(always)]
    pub(crate) fn locals<'b>(&'b self) -> LocalsRef<'b>
        ensures { result ≡ (parts_in self.now).locals }
    {
        match self {
            KeptParts::Several(rest) => LocalsRef::of(rest.get().locals.groups()),
            _ => LocalsRef::of(&[]),
        }
    }

    /// The type behind `type` that is an identifier.
    #[inline(always)]
    pub(crate) fn index(&self) -> Option<Index<'a>>
        ensures { result ≡ (parts_in self.now).index }
    {
        match self {
            KeptParts::Index(index) => Some(index.get().again()),
            KeptParts::Several(rest) => index_among(rest.get()),
            _ => None,
        }
    }

    /// The identifiers of parameters.
    #[inline(always)]
    pub(crate) fn names<'b>(&'b self) -> &'b [ParamName<'b>]
        ensures { result.now ≡ (parts_in self.now).names }
    {
        match self {
            KeptParts::Several(rest) => names_among(rest.get()),
            _ => &[],
        }
    }

    /// The names of an import.
    #[inline(always)]
    pub(crate) fn import(&self) -> Option<&ImportNames<'a>>
        ensures { option_copied result ≡ (parts_in self.now).import }
    {
        match self {
            KeptParts::Import(names) => Some(names.get()),
            KeptParts::Several(rest) => import_among(rest.get()),
            _ => None,
        }
    }
}

#[inline(never)]
fn index_among<'a>(rest: &FuncRest<'a>) -> Option<Index<'a>>
    ensures { result ≡ (spread rest.now).index }
{
    match rest.more.get() {
        None => None,
        Some(more) => index_again(&more.index),
    }
}

#[inline(always)]
fn names_in<'b>(more: &'b FuncMore<'_>) -> &'b [ParamName<'b>]
    ensures { result.now ≡ more.now.names }
{
    more.names.as_slice()
}

#[inline(never)]
fn names_among<'b>(rest: &'b FuncRest<'_>) -> &'b [ParamName<'b>]
    ensures { result.now ≡ (spread rest.now).names }
{
    match rest.more.get() {
        None => &[],
        Some(more) => names_in(more),
    }
}

#[inline(never)]
fn import_among<'b, 'a>(rest: &'b FuncRest<'a>) -> Option<&'b ImportNames<'a>>
    ensures { option_copied result ≡ (spread rest.now).import }
{
    match rest.more.get() {
        None => None,
        Some(more) => more.import.get(),
    }
}

/// The parts of a function that has no inline exports, no locals and no identifiers of parameters.
#[inline(always)]
fn kept_alone<'a>(
    alloc: Global,
    id: Option<Id<'a>>,
    index: Option<Index<'a>>,
    import: Option<ImportNames<'a>>,
) -> Result<KeptParts<'a>, AllocError>
    ensures { IfOk result (λ kept. parts_in kept ≡ alone id.entry index.entry import.entry) }
{
    match (id, index, import) {
        (None, None, None) => Ok(KeptParts::Nothing),
        (Some(id), None, None) => Ok(KeptParts::Id(Apart::new(alloc, id)?)),
        (None, Some(index), None) => Ok(KeptParts::Index(Apart::new(alloc, index)?)),
        (None, None, Some(names)) => Ok(KeptParts::Import(Apart::new(alloc, names)?)),
        (id, index, import) => kept_several(
            alloc,
            FuncParts {
                id,
                exports: List::new(alloc),
                locals: TextLocals::new(alloc),
                index,
                names: List::new(alloc),
                import,
            },
        ),
    }
}

/// All parts.
#[inline(never)]
fn kept_several<'a>(alloc: Global, parts: FuncParts<'a>) -> Result<KeptParts<'a>, AllocError>
    ensures { IfOk result (λ kept. parts_in kept ≡ parts.entry) }
{
    let FuncParts {
        id,
        exports,
        locals,
        index,
        names,
        import,
    } = parts;
    let more = kept_more(alloc, index, names, import)?;
    let rest = FuncRest {
        id,
        exports,
        locals,
        more,
    };
    Ok(KeptParts::Several(Apart::new(alloc, rest)?))
}

fn kept_more<'a>(
    alloc: Global,
    index: Option<Index<'a>>,
    names: List<ParamName<'a>>,
    import: Option<ImportNames<'a>>,
) -> Result<Rare<FuncMore<'a>>, AllocError>
    ensures { IfOk result (λ kept. more_in kept ≡ more_with index.entry names.entry import.entry) }
{
    if index.is_none() && names.is_empty() && import.is_none() {
        return Ok(Rare::none());
    }
    let import = Rare::of(alloc, import)?;
    Rare::some(
        alloc,
        FuncMore {
            index,
            names,
            import,
        },
    )
}
