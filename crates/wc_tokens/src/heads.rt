//! What stands at the front of a text: a gap, a token, or a fault.

ghost use Rattle.std.specs.Prelude.{◌≡◌, ◌≤◌, ℕ, List, ◌∷◌, MatchOption, length, drop};
ghost use Rattle.wc_tokens.specs.Standard.Gaps.{Inside, Gaps};
ghost use Rattle.wc_tokens.specs.Reading.Heads.{IsFront, IsFrontOrEnd, RunEnds, IsHead};

use crate::bytes::behind;
use crate::classes::{is_blank, is_idchar};
use crate::elements::after_elements;
use crate::fault::LexWhy;
use crate::lines::after_line;
use crate::names::{after_name, after_run_from};
use crate::spaces::count_blanks;
use crate::token::TokenKind;

/// What stands at the front of a text.
#[derive(Clone, Copy)]
pub enum Head<'a> {
    /// A comment, and what follows it.
    Gap(&'a [u8]),
    /// A token, and what follows it.
    Token(TokenKind, &'a [u8]),
    /// Nothing whole: the text from the fault on, and its reason.
    Stuck(&'a [u8], LexWhy),
}

/// The first byte behind blanks.
#[derive(Clone, Copy)]
pub struct Front<'a> {
    /// The text from it on.
    pub here: &'a [u8],
    /// The byte.
    pub first: u8,
    /// What follows it.
    pub rest: &'a [u8],
}

/// The first byte that is no blank, from one place of a text to another, or `None` where there are only blanks. Only
/// gaps stand before the first place.
#[inline(always)]
fn front_between(text: &[u8], from: usize, to: usize) -> Option<Front<'_>>
    requires within { from ≤ to }
    requires end { to ≤ length text.now }
    requires gaps { Gaps text.now (drop from text.now) }
    ensures { MatchOption result (Gaps text.now (drop to text.now))
        (λ front. Gaps text.now front.here.now × IsFront front) }
{
    let mut at = from;
    while at < to {
        let first = text[at];
        if !is_blank(first) {
            return Some(Front {
                here: &text[at..],
                first,
                rest: &text[at + 1..],
            });
        }
        at += 1;
    }
    None
}

/// The first byte behind the blanks at the front of a text, or `None` where there are only blanks.
#[inline(always)]
pub fn behind_blanks(text: &[u8]) -> Option<Front<'_>>
    ensures { IsFrontOrEnd text.now result }
{
    // Most gaps are one blank.
    let few = text.len().min(2);
    if let Some(front) = front_between(text, 0, few) {
        return Some(front);
    }
    front_between(text, few + count_blanks(&text[few..]), text.len())
}

/// What follows a block comment whose `(;` stands before the text, if it is closed.
pub fn after_comment(text: &[u8]) -> Option<&[u8]>
    ensures { MatchOption result ((rest : List ℕ) → ¬ (Inside text.now (59 ∷ 41 ∷ rest)))
        (λ rest. Inside text.now (59 ∷ 41 ∷ rest.now)) }
{
    let mut depth = 0usize;
    let mut at = 0;
    while at + 1 < text.len() {
        if text[at] == b'(' && text[at + 1] == b';' {
            depth += 1;
            at += 2;
        } else if text[at] == b';' && text[at + 1] == b')' {
            if depth == 0 {
                return Some(&text[at + 2..]);
            }
            depth -= 1;
            at += 2;
        } else {
            at += 1;
        }
    }
    None
}

/// What follows a run of idchars.
#[inline(always)]
fn after_run(text: &[u8]) -> &[u8]
    ensures { RunEnds text.now result.now }
{
    after_run_from(text, 0)
}

/// A parenthesis or a block comment.
#[inline(always)]
fn parenthesis<'a>(text: &'a [u8], rest: &'a [u8]) -> Head<'a>
    requires { text.now ≡ 40 ∷ rest.now }
    ensures { IsHead text.now result }
{
    let Some(inside) = behind(rest, b';') else {
        return Head::Token(TokenKind::Open, rest);
    };
    match after_comment(inside) {
        Some(after) => Head::Gap(after),
        None => Head::Stuck(text, LexWhy::CommentOpen),
    }
}

/// A line comment or a lone semicolon.
fn semicolon<'a>(text: &'a [u8], rest: &'a [u8]) -> Head<'a>
    requires { text.now ≡ 59 ∷ rest.now }
    ensures { IsHead text.now result }
{
    match behind(rest, b';') {
        Some(line) => Head::Gap(after_line(line)),
        None => Head::Stuck(text, LexWhy::Character),
    }
}

/// A string.
fn string<'a>(text: &'a [u8], rest: &'a [u8]) -> Head<'a>
    requires { text.now ≡ 34 ∷ rest.now }
    ensures { IsHead text.now result }
{
    let end = after_elements(rest);
    if end.is_empty() {
        return Head::Stuck(text, LexWhy::StringOpen);
    }
    match behind(end, b'"') {
        Some(after) => Head::Token(TokenKind::Str, after),
        None => Head::Stuck(end, LexWhy::Escape),
    }
}

/// An identifier whose `$` stands before the text, or that `$` alone, which is a word.
#[inline(always)]
fn identifier(rest: &[u8]) -> Head<'_>
    ensures { IsHead (36 ∷ rest.now) result }
{
    let after = after_name(rest);
    if after.len() < rest.len() {
        return Head::Token(TokenKind::Id, after);
    }
    Head::Token(TokenKind::Word, after)
}

/// What stands at the front of a text that a byte begins which is no blank.
#[inline(always)]
pub fn head_of(front: Front<'_>) -> Head<'_>
    requires { IsFront front }
    ensures { IsHead front.entry.here.now result }
{
    let text = front.here;
    let rest = front.rest;
    if is_idchar(front.first) {
        if front.first == b'$' {
            return identifier(rest);
        }
        return Head::Token(TokenKind::Word, after_run(rest));
    }
    match front.first {
        b'(' => parenthesis(text, rest),
        b')' => Head::Token(TokenKind::Close, rest),
        b';' => semicolon(text, rest),
        b'"' => string(text, rest),
        _ => Head::Stuck(text, LexWhy::Character),
    }
}
