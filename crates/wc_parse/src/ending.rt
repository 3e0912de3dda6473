//! The end of a text.

ghost use Rattle.std.specs.Prelude.{IfOk, IfErr, List};
ghost use Rattle.wc_tokens.specs.Standard.Lexemes.{Lexeme};
ghost use Rattle.wc_parse.specs.Standard.Faults.{IsFault};
ghost use Rattle.wc_parse.specs.Standard.Meaning.{Syn};
ghost use Rattle.wc_parse.specs.Kept.SaidSoFar.{IsAllSaid};

use crate::fault::SynFault;
use crate::text_draft::TextDraft;
use std::alloc::Global;
use wc_surface::Surface;
use wc_syntax::{Reading, SynWhy};

/// The fields of a text of which so many tokens were read, and none is left; or that one more has to follow. They are
/// taken out of the draft.
pub(crate) fn ended<'a>(
    alloc: Global,
    reading: &Reading,
    draft: &mut TextDraft<'a>,
    count: usize,
) -> Result<Surface<'a>, SynFault>
    requires { (ts : List Lexeme) × IsAllSaid ts count reading.now draft.old }
    ensures ok { IfOk result (λ fields. (ts : List Lexeme)
        → IsAllSaid ts count reading.now draft.old → Syn ts fields) }
    ensures fault { IfErr result (λ fault. (ts : List Lexeme)
        → IsAllSaid ts count reading.now draft.old → IsFault ts fault) }
{
    if reading.is_text() {
        Ok(Surface::new(draft.take_fields(alloc)))
    } else {
        Err(SynFault::Bad {
            token: count as u64,
            why: SynWhy::End,
        })
    }
}
