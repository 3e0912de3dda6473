//! From the tokens of a text to its fields.

ghost use Rattle.std.specs.Prelude.{◌≡◌, ◌<◌, ◌^◌, ◌+◌, ◌∷◌, [], ◌⊎◌, ℕ, List, drop};
ghost use Rattle.std.specs.Prelude.{IfOk, IfErr, OnOk, MatchResult, IsErrAnd};
ghost use Rattle.wc_tokens.specs.Standard.Lexemes.{Lexeme, HasForm};
ghost use Rattle.wc_tokens.specs.Standard.Tokens.{InOrder, lexeme_of};
ghost use Rattle.wc_syntax.specs.declared.why.SynWhy.{SynWhy as Reason};
ghost use Rattle.wc_surface.specs.declared.field.Field.{Field};
ghost use Rattle.wc_parse.specs.declared.fault.SynFault.TheVariants.{Bad, Memory};
ghost use Rattle.wc_parse.specs.Standard.Faults.{FirstFault, IsFault};
ghost use Rattle.wc_parse.specs.Standard.Meaning.{Syn};
ghost use Rattle.wc_body.specs.Standard.Nested.{nesting_limit};
ghost use Rattle.wc_syntax.specs.Standard.Reading.{IsRead};
ghost use Rattle.wc_parse.specs.Kept.SaidSoFar.{IsSaid, IsAllSaid};
ghost use Rattle.wc_parse.specs.Kept.Texts.{nothing};

use crate::ending::ended;
use crate::fault::SynFault;
use crate::taking::take_token;
use crate::text_draft::TextDraft;
use std::alloc::Global;
use wc_body::NESTING_LIMIT;
use wc_surface::Surface;
use wc_syntax::Reading;
use wc_tokens::Tokens;

/// Takes all tokens, and answers how many they were, or the first fault.
// What they say stands elsewhere, so that nothing has to be let go where one is refused.
#[inline(always)]
fn take_each<'a>(
    alloc: Global,
    tokens: &Tokens<'a>,
    reading: &mut Reading,
    draft: &mut TextDraft<'a>,
) -> Result<usize, SynFault>
    requires reading { IsRead nesting_limit [] [] reading.old }
    requires draft { draft.old ≡ nothing }
    ensures ok { IfOk result (λ count. IsAllSaid tokens.now count reading.new draft.new) }
    ensures fault { IfErr result (λ fault. IsFault tokens.now fault) }
{
    let all = tokens.as_slice();
    let mut at: usize = 0;
    while at < all.len() {
        take_token(alloc, reading, draft, at, &all[at])?;
        at += 1;
    }
    Ok(at)
}

/// The fields, or the first fault.
fn fields_or_fault<'a>(alloc: Global, tokens: &Tokens<'a>) -> Result<Surface<'a>, SynFault>
    ensures { MatchResult result (λ fields. Syn tokens.now fields) (λ fault. IsFault tokens.now fault) }
{
    let mut reading = Reading::new(alloc, NESTING_LIMIT);
    let mut draft = TextDraft::new(alloc);
    let count = take_each(alloc, tokens, &mut reading, &mut draft)?;
    ended(alloc, &reading, &mut draft, count)
}

/// The fields of a text (Core 1.0, 6.6.13), in which at most `NESTING_LIMIT` blocks and folded instructions are nested
/// in one another, or its first fault: the first token such that no text, however deep, begins with the tokens up to
/// and including it, or that names one nested too deep; or the number of tokens where one more has to follow.
///
/// `Memory` comes only where memory was refused.
pub fn parse<'a>(alloc: Global, tokens: &Tokens<'a>) -> Result<Surface<'a>, SynFault>
    ensures ok { IfOk result (λ surface. Syn tokens.now surface) }
    ensures fault { IfErr result (λ fault. IsFault tokens.now fault) }

    // So the answer is these fields exactly where the tokens say them, and this fault exactly where it is the first.
    ensures only { (fields : List Field) → Syn tokens.now fields
        → MatchResult result (λ surface. surface ≡ fields) (λ fault. fault ≡ Memory) }
    ensures only_fault { (token : ℕ) (why : Reason) → FirstFault tokens.now token why
        → IsErrAnd result (λ fault. (fault ≡ Bad token why) ⊎ (fault ≡ Memory)) }
{
    fields_or_fault(alloc, tokens)
}
