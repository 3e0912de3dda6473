//! From a text to its fields, with no token kept.

ghost use Rattle.std.specs.Prelude.{◌≡◌, ◌⊎◌, [], List, IfOk, IfErr, IsErrAnd, MatchResult};
ghost use Rattle.wc_body.specs.Standard.Nested.{nesting_limit};
ghost use Rattle.wc_syntax.specs.Standard.Reading.{IsRead};
ghost use Rattle.wc_surface.specs.declared.field.Field.{Field};
ghost use Rattle.wc_parse.specs.declared.fault.SynFault.TheVariants.{Bad};
ghost use Rattle.wc_parse.specs.declared.refusal.TextRefusal.{TextRefusal as Refusal};
ghost use Rattle.wc_parse.specs.declared.refusal.TextRefusal.TheVariants.{Memory};
ghost use Rattle.wc_parse.specs.Standard.Wholes.{SaysText, FirstRefusal, IsRefused};
ghost use Rattle.wc_parse.specs.Kept.AllRead.{IsAllRead};
ghost use Rattle.wc_parse.specs.Kept.Refusing.{RefusesBy};
ghost use Rattle.wc_parse.specs.Kept.Texts.{nothing};

use crate::ending::ended;
use crate::fault::SynFault;
use crate::refusal::TextRefusal;
use crate::taking::take_token;
use crate::text_draft::TextDraft;
use crate::wholes::take_wholes;
use std::alloc::Global;
use wc_body::NESTING_LIMIT;
use wc_surface::Surface;
use wc_syntax::{Reading, SynWhy};
use wc_tokens::Lexer;

/// The first fault of a text of whose tokens this is the first that the grammar refuses: what is left may have no
/// tokens.
#[cold]
#[inline(never)]
fn ungrammatical(lexer: &Lexer<'_>, token: u64, why: SynWhy) -> TextRefusal
    ensures { RefusesBy lexer.now (Bad token why) result }
{
    match lexer.check_rest() {
        Ok(_) => TextRefusal::Syntax { token, why },
        Err(stop) => TextRefusal::Lex(stop),
    }
}

/// The first fault of a text whose tokens so far have this one.
// It takes what is left for itself, so that a loop needs no place for it in memory.
#[inline(always)]
fn refused(lexer: Lexer<'_>, fault: SynFault) -> TextRefusal
    ensures { RefusesBy lexer.entry fault result }
{
    match fault {
        SynFault::Bad { token, why } => ungrammatical(&lexer, token, why),
        SynFault::Memory => TextRefusal::Memory,
    }
}

/// Takes all tokens of a text, and answers what is left of it then and how many they were, or the first fault.
// What they say stands elsewhere, so that nothing has to be let go where the text has a fault.
#[inline(always)]
fn take_all<'a>(
    alloc: Global,
    text: &'a [u8],
    reading: &mut Reading,
    draft: &mut TextDraft<'a>,
) -> Result<(Lexer<'a>, usize), TextRefusal>
    requires reading { IsRead nesting_limit [] [] reading.old }
    requires draft { draft.old ≡ nothing }
    ensures ok { IfOk result (λ r. IsAllRead text.now r.1 r.0 reading.new draft.new) }
    ensures fault { IfErr result (λ refusal. IsRefused text.now refusal) }
{
    let mut lexer = Lexer::new(text)?;
    let mut at: usize = 0;
    while let Some(token) = lexer.next()? {
        match take_token(alloc, reading, draft, at, &token) {
            Ok(false) => at += 1,
            Ok(true) => match take_wholes(alloc, &mut lexer, reading, draft, at + 1) {
                Ok(behind) => at = behind,
                Err(_) => return Err(TextRefusal::Memory),
            },
            Err(fault) => return Err(refused(lexer, fault)),
        }
    }
    Ok((lexer, at))
}

/// The fields, or the first fault.
fn fields_or_refusal<'a>(alloc: Global, text: &'a [u8]) -> Result<Surface<'a>, TextRefusal>
    ensures ok { IfOk result (λ fields. SaysText text.now fields) }
    ensures fault { IfErr result (λ refusal. IsRefused text.now refusal) }
{
    let mut reading = Reading::new(alloc, NESTING_LIMIT);
    let mut draft = TextDraft::new(alloc);
    let (lexer, count) = match take_all(alloc, text, &mut reading, &mut draft) {
        Ok(read) => read,
        Err(refusal) => return Err(refusal),
    };
    match ended(alloc, &reading, &mut draft, count) {
        Ok(fields) => Ok(fields),
        Err(fault) => Err(refused(lexer, fault)),
    }
}

/// The fields that a text says (Core 1.0, 6.2 to 6.6), or its first fault: of its length, its encoding and its tokens,
/// else of its grammar, as [`parse`](crate::parse) tells it. No token is kept.
///
/// At most `NESTING_LIMIT` blocks and folded instructions are nested in one another. `Memory` comes only where memory
/// was refused.
pub fn parse_text<'a>(alloc: Global, text: &'a [u8]) -> Result<Surface<'a>, TextRefusal>
    ensures ok { IfOk result (λ surface. SaysText text.now surface) }
    ensures fault { IfErr result (λ refusal. IsRefused text.now refusal) }

    // So the answer is these fields exactly where the text says them, and this fault exactly where it is the first.
    ensures only { (fields : List Field) → SaysText text.now fields
        → MatchResult result (λ surface. surface ≡ fields) (λ refusal. refusal ≡ Memory) }
    ensures only_fault { (refusal : Refusal) → FirstRefusal text.now refusal
        → IsErrAnd result (λ found. (found ≡ refusal) ⊎ (found ≡ Memory)) }
{
    fields_or_refusal(alloc, text)
}
