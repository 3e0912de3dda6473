//! What the grammar says of a text whose tokens are kept.

use crate::sheet::Sheet;
use crate::told::tell_refusal;
use std::alloc::Global;
use wc_canon::{Refusal, normalise};
use wc_parse::{SynFault, parse};
use wc_surface::Surface;
use wc_tokens::{Tokens, lex};

/// The first byte of a token, or the length of the text where it has fewer.
fn place_of(tokens: &Tokens<'_>, token: u64, length: usize) -> u64 {
    match usize::try_from(token) {
        Ok(number) => match tokens.as_slice().get(number) {
            Some(token) => token.start as u64,
            None => length as u64,
        },
        Err(_) => length as u64,
    }
}

/// The refusal of the tokens of a text of this length, if they are refused.
fn refusal_by(
    tokens: &Tokens<'_>,
    length: usize,
    answer: Result<Surface<'_>, SynFault>,
) -> Option<Refusal> {
    match answer {
        Ok(_) => None,
        Err(SynFault::Bad { token, why }) => Some(Refusal::Syntax {
            token,
            at: place_of(tokens, token, length),
            why,
        }),
        Err(SynFault::Memory) => Some(Refusal::Memory),
    }
}

/// Whether the grammar refuses the text where no token is kept.
fn is_refused(alloc: Global, text: &[u8]) -> bool {
    matches!(normalise(alloc, text), Err(Refusal::Syntax { .. }))
}

/// Whether a refusal is told so.
fn is_told(alloc: Global, refusal: &Refusal, told: Option<&str>) -> bool {
    let mut text = Sheet::new(alloc);
    tell_refusal(&mut text, refusal);
    told == Some(text.as_text())
}

/// Whether the tokens of a text are refused so, or taken where it is, as where none is kept.
fn tokens_agree(alloc: Global, text: &[u8], tokens: &Tokens<'_>, told: Option<&str>) -> bool {
    match refusal_by(tokens, text.len(), parse(alloc, tokens)) {
        Some(refusal) => is_told(alloc, &refusal, told),
        None => !is_refused(alloc, text),
    }
}

/// Whether the grammar says the same of a text whose tokens are kept; of a binary, and of a text that has none,
/// nothing is asked. `told` is why the input is refused, if it is.
pub fn kept_agree(alloc: Global, input: &[u8], told: Option<&str>) -> bool {
    if input.first() == Some(&0) {
        return true;
    }
    match lex(alloc, input) {
        Ok(tokens) => tokens_agree(alloc, input, &tokens, told),
        Err(_) => true,
    }
}
