//! From a text to its tokens.

ghost use Rattle.std.specs.Prelude.{◌≡◌, ◌⊎◌, ℕ, List, IfOk, IfErr, IsErrAnd, MatchResult};
ghost use Rattle.wc_tokens.specs.Standard.Lexemes.{Lexeme, Lexes};
ghost use Rattle.wc_tokens.specs.Standard.Faults.{FirstFault, IsFault};
ghost use Rattle.wc_tokens.specs.declared.fault.LexWhy.{LexWhy as Reason};

use crate::fault::LexFault;
use crate::stream::Lexer;
use crate::tokens::Tokens;
use std::alloc::Global;

/// The tokens of a text, or its first fault.
fn tokens_or_fault<'a>(alloc: Global, text: &'a [u8]) -> Result<Tokens<'a>, LexFault>
    ensures tokens { IfOk result (λ ts. Lexes text.now ts) }
    ensures fault { IfErr result (λ f. IsFault text.now f) }
{
    let mut lexer = Lexer::new(text)?;
    let mut items = Vec::new(alloc);
    while let Some(token) = lexer.next()? {
        // With the room there, the token is written straight to its place.
        items.reserve(1)?;
        items.push_reserved(token);
    }
    Ok(Tokens::new(items))
}

/// The tokens of a text, with their spans in bytes (Core 1.0, 6.2 and 6.3).
///
/// The text is UTF-8 of at most 4,294,967,295 bytes, and is gaps and tokens in turn. A gap is white space, line
/// comments and block comments, which nest; a token is as long as possible. Otherwise the answer is the first
/// fault, in this order: the length, the encoding, and then the first byte at which no whole gap or token
/// begins, as [`LexWhy`] says. `Memory` comes only where memory was refused.
pub fn lex<'a>(alloc: Global, text: &'a [u8]) -> Result<Tokens<'a>, LexFault>
    ensures tokens { IfOk result (λ ts. Lexes text.now ts) }
    ensures fault { IfErr result (λ f. IsFault text.now f) }

    // So the answer is these tokens exactly where the text has them, and this fault exactly where it is the first.
    ensures only { (ts : List Lexeme) → Lexes text.now ts
        → MatchResult result (λ v. v ≡ ts) (λ f. f ≡ LexFault.Memory) }
    ensures only_fault { (at : ℕ) (why : Reason) → FirstFault text.now at why
        → IsErrAnd result (λ f. (f ≡ LexFault.Bad at why) ⊎ (f ≡ LexFault.Memory)) }
{
    tokens_or_fault(alloc, text)
}
