//! Where the tokens of a text begin.

ghost use Rattle.std.specs.Prelude.{◌≡◌, List, IfOk, IfErr};
ghost use Rattle.wc_tokens.specs.Standard.Lexemes.{Lexeme, Lexes};
ghost use Rattle.wc_read_text.specs.Standard.Faults.{byte_of as place_of};

use wc_tokens::{Lexer, Stop};

/// The byte at which the token of this number begins, or the text's length, where no token is left. A text that has
/// tokens has no fault.
fn start_of(text: &[u8], token: u64) -> Result<u64, Stop>
    ensures at { IfOk result (λ at. (tokens : List Lexeme)
        → Lexes text.now tokens → at ≡ place_of text.now tokens token) }
    ensures fault { IfErr result (λ _. (tokens : List Lexeme) → ¬ (Lexes text.now tokens)) }
{
    let mut lexer = Lexer::new(text)?;
    let mut at: u64 = 0;
    while let Some(found) = lexer.next()? {
        if at == token {
            return Ok(found.start as u64);
        }
        at += 1;
    }
    Ok(text.len() as u64)
}

/// The byte at which the token of this number begins, in a text that has tokens, or the text's length, where no token
/// is left.
// The tokens are not kept, but read once more for the one fault.
#[cold]
#[inline(never)]
pub(crate) fn byte_of(text: &[u8], token: u64) -> u64
    ensures { (tokens : List Lexeme) → Lexes text.now tokens → result ≡ place_of text.now tokens token }
{
    match start_of(text, token) {
        Ok(at) => at,
        Err(_) => text.len() as u64,
    }
}
