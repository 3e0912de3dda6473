//! What the grammar keeps of a text, and where it refuses one, in which two instructions may be nested.

ghost use Rattle.wc_tokens.specs.Standard.Tokens.{InOrder, lexemes_of};

use crate::sheet::Sheet;
use std::alloc::Global;
use wc_symbols::symbol_of;
use wc_syntax::{Kept, Kind, Refusal, SynWhy, kept_tokens};
use wc_tokens::{Token, Tokens, lex};

/// The words of a row of words, in their order.
const WORDS: &str =
    "( ) $a 0 4294967296 18446744073709551616 -1 -4294967296 +0x8000_0000 -99999999999999999999 \
    \"a\" \"\\ff\" offset=0 offset=4294967296 offset=x align=4 align=3 align=4294967296 align=-1 \
    nop br br_table call_indirect i32.load i32.const i64.const block if then else end module type \
    import func table memory global export start elem data offset local param result mut funcref \
    i32 f32 f64.add get_local $";

/// How many instructions may be nested.
const LIMIT: usize = 2;

/// A reason as a digit.
fn digit(why: SynWhy) -> &'static str {
    match why {
        SynWhy::Unexpected => "1",
        SynWhy::End => "2",
        SynWhy::Range => "3",
        SynWhy::Align => "4",
        SynWhy::Float => "5",
        SynWhy::NoInstruction => "6",
        SynWhy::Depth => "7",
        SynWhy::NameNotUtf8 => "8",
    }
}

/// Puts a kind behind others.
fn push(told: &mut Sheet, kinds: &mut Vec<Kind>, kind: Kind) {
    if kinds.push(kind).is_err() {
        told.refuse();
    }
}

/// Puts the kinds of tokens behind others.
fn push_kinds(told: &mut Sheet, kinds: &mut Vec<Kind>, tokens: &[Token<'_>])
    requires { InOrder 0 (lexemes_of tokens.now) }
{
    for token in tokens {
        push(told, kinds, symbol_of(token).kind);
    }
}

/// Puts the kinds of the tokens of a text behind others.
fn push_kinds_in(told: &mut Sheet, kinds: &mut Vec<Kind>, text: &[u8]) {
    match lex(told.alloc(), text) {
        Ok(tokens) => push_kinds(told, kinds, tokens.as_slice()),
        Err(_) => told.note("the text has no tokens"),
    }
}

/// The kinds of the tokens of a text.
fn kinds_in(told: &mut Sheet, text: &[u8]) -> Vec<Kind> {
    let mut kinds = Vec::new(told.alloc());
    push_kinds_in(told, &mut kinds, text);
    kinds
}

/// The token and the reason of the first fault of a text; the number of tokens and `.` where it has none.
fn fault(alloc: Global, kinds: &[Kind]) -> (usize, &'static str) {
    match kept_tokens(alloc, LIMIT, kinds) {
        Ok(_) => (kinds.len(), "."),
        Err(Refusal::Bad { token, why }) => (token, digit(why)),
        Err(Refusal::Memory) => (0, "out of memory"),
    }
}

/// The last of the tokens: `.` where some text begins with them, the reason where the fault is at it, and else `?`.
fn last_token(alloc: Global, kinds: &[Kind]) -> &'static str {
    let (token, reason) = fault(alloc, kinds);
    if token == kinds.len() && (reason == "." || reason == "2") {
        "."
    } else if token.saturating_add(1) == kinds.len() {
        reason
    } else {
        "?"
    }
}

/// Puts what a word is behind the kinds, which stay the same.
fn put_word(told: &mut Sheet, kinds: &mut Vec<Kind>, word: &str) {
    let count = kinds.len();
    push_kinds_in(told, kinds, word.as_bytes());
    told.put_text(last_token(told.alloc(), kinds));
    kinds.truncate(count);
}

/// Tells what each of the words is behind a front.
pub fn tell_words(told: &mut Sheet, front: &[u8]) {
    let mut kinds = kinds_in(told, front);
    for word in WORDS.split(' ') {
        put_word(told, &mut kinds, word);
    }
}

/// Tells the token and the reason of the first fault, as `7:1`.
pub fn tell_fault(told: &mut Sheet, text: &[u8]) {
    let kinds = kinds_in(told, text);
    let (token, reason) = fault(told.alloc(), &kinds);
    told.put_number("", token as u64);
    told.put_text(":");
    told.put_text(reason);
}

/// How many tokens the first front has that no text begins with, if there is one.
fn first_odd_front(alloc: Global, kinds: &[Kind]) -> Option<usize> {
    for count in 1..kinds.len() {
        if last_token(alloc, &kinds[..count]) != "." {
            return Some(count);
        }
    }
    None
}

/// Tells `.` of a text of the grammar whose fronts all begin one; else the first front that doesn't, or the reason of
/// the fault.
pub fn tell_sentence(told: &mut Sheet, text: &[u8]) {
    let kinds = kinds_in(told, text);
    match first_odd_front(told.alloc(), &kinds) {
        Some(count) => {
            told.put_number("a front of ", count as u64);
            told.put_text(" tokens");
        }
        None => told.put_text(fault(told.alloc(), &kinds).1),
    }
}

/// Puts a kept token, with its role and its text.
fn put_kept_token(told: &mut Sheet, tokens: &[Token<'_>], kept: &Kept) {
    let Some(token) = tokens.get(kept.at) else {
        told.note("no such token");
        return;
    };
    if !told.is_empty() {
        told.put_text(", ");
    }
    told.put_debug(&kept.role);
    told.put_text(" ");
    told.put_text(token.text);
}

/// Puts what is kept.
fn put_kept(told: &mut Sheet, tokens: &[Token<'_>], kept: &[Kept]) {
    for one in kept {
        put_kept_token(told, tokens, one);
    }
}

/// Puts what is kept of tokens.
fn put_roles(told: &mut Sheet, tokens: &Tokens<'_>) {
    let mut kinds = Vec::new(told.alloc());
    push_kinds(told, &mut kinds, tokens.as_slice());
    match kept_tokens(told.alloc(), LIMIT, &kinds) {
        Ok(kept) => put_kept(told, tokens.as_slice(), &kept),
        Err(_) => told.note("the grammar refuses the text"),
    }
}

/// Tells the kept tokens of a text, each with its role.
pub fn tell_roles(told: &mut Sheet, text: &[u8]) {
    match lex(told.alloc(), text) {
        Ok(tokens) => put_roles(told, &tokens),
        Err(_) => told.note("the text has no tokens"),
    }
}
