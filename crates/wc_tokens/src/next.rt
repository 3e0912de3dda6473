//! What comes next in a text.

ghost use Rattle.wc_tokens.specs.Reading.Nexts.{IsNext};

use crate::fault::LexWhy;
use crate::heads::{Head, behind_blanks, head_of};
use crate::token::TokenKind;

/// What comes next in a text, behind its gaps.
#[derive(Clone, Copy)]
pub enum Next<'a> {
    /// A token: the text from it on, and what follows it.
    Token(TokenKind, &'a [u8], &'a [u8]),
    /// The end of the text.
    End,
    /// Nothing whole: the text from the fault on, and its reason.
    Stuck(&'a [u8], LexWhy),
}

/// What comes next in a text.
#[inline(always)]
pub fn next_of(text: &[u8]) -> Next<'_>
    ensures { IsNext text.now result }
{
    let mut next = behind_blanks(text);
    while let Some(front) = next {
        match head_of(front) {
            Head::Gap(after) => next = behind_blanks(after),
            Head::Token(kind, after) => return Next::Token(kind, front.here, after),
            Head::Stuck(at, why) => return Next::Stuck(at, why),
        }
    }
    Next::End
}
