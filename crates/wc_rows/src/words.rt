//! What the tokens of a text are.

ghost use Rattle.wc_tokens.specs.Standard.Tokens.{InOrder, lexemes_of};

use crate::sheet::Sheet;
use wc_symbols::{Symbol, symbol_of};
use wc_tokens::{Token, lex};

/// Puts the kind of a token, and the places where it begins and stops.
fn put_token(told: &mut Sheet, token: &Token<'_>) {
    if !told.is_empty() {
        told.put_text(", ");
    }
    told.put_debug(&token.kind);
    told.put_number(" ", token.start as u64);
    told.put_number(" ", token.stop as u64);
}

/// Puts what the only token is to the grammar: its kind and its value.
fn put_only_symbol(told: &mut Sheet, tokens: &[Token<'_>])
    requires { InOrder 0 (lexemes_of tokens.now) }
{
    let [token] = tokens else {
        told.note("the text is not one token");
        return;
    };
    let Symbol { kind, value } = symbol_of(token);
    told.put_debug(&kind);
    told.put_text(" ");
    told.put_debug(&value);
}

/// Tells what the only token of a text is to the grammar.
pub fn tell_symbol(told: &mut Sheet, text: &[u8]) {
    match lex(told.alloc(), text) {
        Ok(tokens) => put_only_symbol(told, tokens.as_slice()),
        Err(_) => told.note("the text has no tokens"),
    }
}

/// Puts tokens.
fn put_tokens(told: &mut Sheet, tokens: &[Token<'_>]) {
    for token in tokens {
        put_token(told, token);
    }
}

/// Tells the tokens of a text, each by its kind and its places: `Word 0 1`.
pub fn tell_tokens(told: &mut Sheet, text: &[u8]) {
    match lex(told.alloc(), text) {
        Ok(tokens) => put_tokens(told, tokens.as_slice()),
        Err(_) => told.note("the text has no tokens"),
    }
}
