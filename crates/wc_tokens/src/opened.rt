//! Parentheses, and words right behind opening ones, where they come at once.

ghost use Rattle.std.specs.Prelude.{IsTrue, IsFalse, IfSome};
ghost use Rattle.wc_tokens.specs.Standard.Gaps.{Gaps};
ghost use Rattle.wc_tokens.specs.Standard.Lexemes.{IsRun, BeginsNoIdchar};
ghost use Rattle.wc_tokens.specs.Reading.Openings.{IsOpened, IsClosed};
ghost use Rattle.wc_tokens.specs.declared.token.TokenKind.TheVariants.{Word};

use crate::bytes::behind;
use crate::classes::is_idchar;
use crate::heads::{after_comment, behind_blanks};
use crate::names::after_run_from;

/// A parenthesis with a word right behind it: the text from the parenthesis on, and what follows each.
#[derive(Clone, Copy)]
pub struct OpenedWord<'a> {
    pub here: &'a [u8],
    pub inside: &'a [u8],
    pub rest: &'a [u8],
}

/// Whether these bytes are a word.
// Of a constant the compiler knows it.
#[inline(always)]
fn is_word(word: &[u8]) -> bool
    ensures { IsTrue result → IsRun Word word.now }
{
    match word.first() {
        Some(first) => *first != b'$' && after_run_from(word, 0).is_empty(),
        None => false,
    }
}

/// Whether a text goes on with an idchar.
#[inline(always)]
fn begins_idchar(text: &[u8]) -> bool
    ensures { IsFalse result → BeginsNoIdchar text.now }
{
    match text.first() {
        Some(first) => is_idchar(*first),
        None => false,
    }
}

/// An opening parenthesis and this word right behind it, where they come behind blanks.
#[inline(always)]
fn opened_behind_blanks<'a>(text: &'a [u8], word: &[u8]) -> Option<OpenedWord<'a>>
    ensures { IfSome result (IsOpened text.now word.now) }
{
    let front = behind_blanks(text)?;
    if front.first != b'(' || !is_word(word) {
        return None;
    }
    let rest = front.rest.strip_prefix(word)?;
    if begins_idchar(rest) {
        return None;
    }
    Some(OpenedWord {
        here: front.here,
        inside: front.rest,
        rest,
    })
}

/// What follows a block comment that comes behind blanks.
#[inline(never)]
fn behind_comment(text: &[u8]) -> Option<&[u8]>
    ensures { IfSome result (λ rest. Gaps text.now rest.now) }
{
    let front = behind_blanks(text)?;
    if front.first != b'(' {
        return None;
    }
    let inside = behind(front.rest, b';')?;
    after_comment(inside)
}

/// An opening parenthesis and this word right behind it, where they come behind a block comment.
#[inline(always)]
fn opened_behind_comment<'a>(text: &'a [u8], word: &[u8]) -> Option<OpenedWord<'a>>
    ensures { IfSome result (IsOpened text.now word.now) }
{
    opened_behind_blanks(behind_comment(text)?, word)
}

/// An opening parenthesis and this word right behind it, where they come behind blanks, or behind one block comment.
// Some writers number what they write in comments.
#[inline(always)]
pub fn opened_word<'a>(text: &'a [u8], word: &[u8]) -> Option<OpenedWord<'a>>
    ensures { IfSome result (IsOpened text.now word.now) }
{
    match opened_behind_blanks(text, word) {
        Some(opened) => Some(opened),
        None => opened_behind_comment(text, word),
    }
}

/// What follows a closing parenthesis that comes behind blanks.
#[inline(always)]
pub fn after_closing(text: &[u8]) -> Option<&[u8]>
    ensures { IfSome result (λ rest. IsClosed text.now rest.now) }
{
    let front = behind_blanks(text)?;
    if front.first == b')' {
        Some(front.rest)
    } else {
        None
    }
}
