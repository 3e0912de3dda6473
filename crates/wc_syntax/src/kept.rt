//! The kept tokens of a text.

ghost use Rattle.std.specs.Prelude.{◌≡◌, ◌⊎◌, ℕ, List, IfOk, IfErr, IsErrAnd, MatchResult};
ghost use Rattle.wc_syntax.specs.Standard.Deriving.{Event};
ghost use Rattle.wc_syntax.specs.Standard.Parsing.{events, IsText, IsRefusal};
ghost use Rattle.wc_syntax.specs.Standard.Reasons.{FirstFault};
ghost use Rattle.wc_syntax.specs.declared.why.SynWhy.{SynWhy as Reason};

use crate::kind::Kind;
use crate::reading::Reading;
use crate::refusal::Refusal;
use crate::role::Role;
use crate::why::SynWhy;
use std::alloc::Global;

/// A kept token: what it is to the text's value, its number, and its kind.
#[derive(Clone, Copy, PartialEq, Eq)]
pub struct Kept {
    pub role: Role,
    pub at: usize,
    pub kind: Kind,
}

/// The kept tokens, or the first fault.
#[inline]
fn kept_or_refusal(alloc: Global, limit: usize, kinds: &[Kind]) -> Result<Vec<Kept>, Refusal>
    ensures { MatchResult result (λ kept. IsText limit kinds.now (events kept.items))
        (λ r. IsRefusal limit kinds.now r) }
{
    let mut reading = Reading::new(alloc, limit);
    let mut kept: Vec<Kept> = Vec::new(alloc);
    let mut at: usize = 0;
    while at < kinds.len() {
        let kind = kinds[at];
        if let Some(role) = reading.take(at, kind)? {
            kept.push(Kept { role, at, kind })?;
        }
        at += 1;
    }
    if reading.is_text() {
        Ok(kept)
    } else {
        Err(Refusal::Bad {
            token: at,
            why: SynWhy::End,
        })
    }
}

/// The kept tokens of a text with tokens of these kinds, in which at most `limit` instructions are nested in one
/// another (Core 1.0, 6.4 to 6.6), or the first token that no such text has there.
///
/// Plain blocks and folded instructions of every kind are nested in one another. The place of a fault is the number of
/// its token, or the number of all tokens where one more has to follow. `Memory` comes only where memory was refused.
pub fn kept_tokens(alloc: Global, limit: usize, kinds: &[Kind]) -> Result<Vec<Kept>, Refusal>
    ensures kept { IfOk result (λ kept. IsText limit kinds.now (events kept.items)) }
    ensures refusal { IfErr result (λ r. IsRefusal limit kinds.now r) }

    // So the answer is what is kept exactly where the tokens are a text, and this fault exactly where it is the first.
    ensures only { (es : List Event) → IsText limit kinds.now es
        → MatchResult result (λ kept. events kept.items ≡ es) (λ r. r ≡ Refusal.Memory) }
    ensures only_fault { (at : ℕ) (why : Reason) → FirstFault limit kinds.now at why
        → IsErrAnd result (λ r. (r ≡ Refusal.Bad at why) ⊎ (r ≡ Refusal.Memory)) }
{
    kept_or_refusal(alloc, limit, kinds)
}
