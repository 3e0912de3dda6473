//! Fields that are read whole, one after another.

ghost use Rattle.std.specs.Prelude.{◌≡◌, ◌+◌, ◌<◌, ◌≤◌, ◌^◌, IfOk, IfSome};
ghost use Rattle.wc_syntax.specs.declared.kind.Kind.TheVariants.{OtherWord};
ghost use Rattle.wc_parse_field.specs.Drafting.Fields.{started};
ghost use Rattle.wc_parse.specs.Kept.Passing.{SaysWhole, Passes};

use crate::externals::{Whole, whole_export, whole_import};
use crate::text_draft::TextDraft;
use std::alloc::{AllocError, Global};
use wc_surface::{Field, ImportDesc, ImportField};
use wc_syntax::Reading;
use wc_tokens::Lexer;

/// From the token of this number on no field is read whole, so that the numbers of all tokens of one have 32 bits.
const END: usize = 4_294_967_000;

/// Whether it is an import of a function by the index of its type, as those are that are read whole.
fn names_type(import: &ImportField<'_>) -> bool {
    match &import.desc {
        ImportDesc::Func(used) => used.index.is_some(),
        _ => false,
    }
}

/// Whether the last field is of a kind that is read whole.
#[inline(always)]
fn may_repeat(draft: &TextDraft<'_>) -> bool {
    matches!(draft.last(), Some(Field::Export(_) | Field::Import(_)))
}

/// The field that comes, from the token of this number on, where it is one like the last one. The error is want of
/// memory.
// Exports mostly stand behind exports, and imports behind imports; so nothing else is asked for twice.
#[inline(always)]
fn whole_like<'a>(
    alloc: Global,
    last: Option<&Field<'a>>,
    ahead: &mut Lexer<'a>,
    at: u32,
) -> Result<Option<Whole<'a>>, AllocError>
    requires { at + 32 ≤ 2 ^ 32 }
    ensures says { IfOk result (λ found. IfSome found (λ w. SaysWhole ahead.old at w.field w.count ahead.new)) }
    ensures count { IfOk result (λ found. IfSome found (λ w. (0 < w.count) × (w.count ≤ 16))) }
{
    match last {
        Some(Field::Export(_)) => whole_export(alloc, ahead, at),
        Some(Field::Import(import)) if names_type(import.get()) => whole_import(alloc, ahead, at),
        _ => Ok(None),
    }
}

/// Reads fields like the last one, whole, as many as come behind a field that ended before the token of this number,
/// and answers the number of the token that comes then. The error is want of memory.
#[inline(never)]
fn take_repeated<'a>(
    alloc: Global,
    lexer: &mut Lexer<'a>,
    reading: &Reading,
    draft: &mut TextDraft<'a>,
    at: usize,
) -> Result<usize, AllocError>
    requires { draft.now.field ≡ started OtherWord 0 }
    ensures { IfOk result (λ after. Passes lexer.old at reading.now draft.old lexer.new after draft.new) }
{
    let mut count = at;
    while count < END && reading.is_between() {
        let mut ahead = lexer.ahead();
        let Some(whole) = whole_like(alloc, draft.last(), &mut ahead, count as u32)? else {
            return Ok(count);
        };
        draft.push(whole.field)?;
        *lexer = ahead;
        count += whole.count;
    }
    Ok(count)
}

/// Reads nothing where the last field is of a kind that is never read whole, and else what `take_repeated` does; and
/// answers the number of the token that comes then. The error is want of memory.
// Most fields are functions, behind which that costs no call. And what is left of the text is copied for it, so that
// the loop over tokens needs no place for it in memory.
#[inline(always)]
pub(crate) fn take_wholes<'a>(
    alloc: Global,
    lexer: &mut Lexer<'a>,
    reading: &Reading,
    draft: &mut TextDraft<'a>,
    at: usize,
) -> Result<usize, AllocError>
    requires { draft.now.field ≡ started OtherWord 0 }
    ensures { IfOk result (λ after. Passes lexer.old at reading.now draft.old lexer.new after draft.new) }
{
    if !may_repeat(draft) {
        return Ok(at);
    }
    let mut ahead = lexer.ahead();
    let after = take_repeated(alloc, &mut ahead, reading, draft, at)?;
    lexer.follow(&ahead);
    Ok(after)
}
