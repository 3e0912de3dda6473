//! A text token by token.

ghost use Rattle.std.specs.Prelude.{◌≡◌, ◌≤◌, ℕ, None, IfOk, IfErr, IfSome, OnSome, IsUtf8, length};
ghost use Rattle.wc_tokens.specs.Standard.Lexemes.{place, longest};
ghost use Rattle.wc_tokens.specs.Standard.Faults.{FirstFault};
ghost use Rattle.wc_tokens.specs.Standard.Streams.{unread, followed, GivesPlain, GivesOpened, GivesClosed};
ghost use Rattle.wc_tokens.specs.Standard.Streams.{IsRead, IsJudged};
ghost use Rattle.wc_tokens.specs.Reading.Stops.{StandsIn};
ghost use Rattle.wc_tokens.specs.declared.token.TokenKind.{TokenKind as Kind};

use crate::fault::{LexWhy, Stop};
use crate::next::{Next, next_of};
use crate::opened::{after_closing, opened_word};
use crate::plain::plain_string;
use crate::token::Token;
use std::marker::Model;

/// The most bytes that a text may have.
const LONGEST: usize = 4_294_967_295;

/// A text that is read token by token (Core 1.0, 6.2 and 6.3). A contract sees what is left of it. It takes no memory.
#[derive(Drop)]
pub struct Lexer<'a> {
    text: &'a str,
    rest: &'a [u8],
}

impl<'a> Model for Lexer<'a> {
    ghost use Rattle.wc_tokens.specs.Standard.Streams.{Unread};

    ghost Value = { Unread };

    ghost use Rattle.std.specs.Prelude.{length};
    ghost use Rattle.wc_tokens.specs.Reading.Stops.{EndsWith};

    ghost view = { λ l. record { size = length l.text.now; rest = l.rest.now } };

    ghost invariant = { λ l. EndsWith l.text.now l.rest.now };
}

/// Where a token stands in a text.
#[derive(Clone, Copy)]
struct Span<'a> {
    text: &'a str,
    start: usize,
    stop: usize,
}

/// The span of the token that stands in a text before the rest.
// It is cut off what is left, so that a loop over tokens needs no more of the text than its length.
#[inline(always)]
fn span_of<'a>(text: &str, here: &'a [u8], rest: &[u8]) -> Span<'a>
    requires { (kind : Kind) × StandsIn text.now kind here.now rest.now }
    ensures text { (kind : Kind) (stands : StandsIn text.now kind here.now rest.now) → result.text.now ≡ stands.part }
    ensures start { result.start ≡ place (length text.now) here.now }
    ensures stop { result.stop ≡ place (length text.now) rest.now }
{
    let part = &here[..here.len() - rest.len()];
    Span {
        text: unsafe { str::from_utf8_unchecked(part) },
        start: text.len() - here.len(),
        stop: text.len() - rest.len(),
    }
}

/// The place of what is left of a text, with the reason for which nothing whole begins there.
fn stop_of(text: &str, rest: &[u8], why: LexWhy) -> Stop
    requires { length rest.now ≤ length text.now }
    ensures at { result.at ≡ place (length text.now) rest.now }
    ensures why { result.why ≡ why }
{
    Stop {
        at: (text.len() - rest.len()) as u64,
        why,
    }
}

impl<'a> Lexer<'a> {
    /// The text from its first byte on, if it is UTF-8 of at most 4,294,967,295 bytes. Else the first fault: of the
    /// length, or of the encoding.
    pub fn new(text: &'a [u8]) -> Result<Lexer<'a>, Stop>
        ensures text { IfOk result (λ lexer. lexer ≡ unread text.now) }
        ensures short { IfOk result (λ _. length text.now ≤ longest) }
        ensures utf8 { IfOk result (λ _. IsUtf8 text.now) }
        ensures fault { IfErr result (λ stop. FirstFault text.now stop.at stop.why) }
    {
        if text.len() > LONGEST {
            return Err(Stop {
                at: LONGEST as u64,
                why: LexWhy::TooLong,
            });
        }
        match simdutf8::compat::from_utf8(text) {
            Ok(text) => Ok(Lexer {
                text,
                rest: text.as_bytes(),
            }),
            Err(error) => Err(Stop {
                at: error.valid_up_to() as u64,
                why: LexWhy::NotUtf8,
            }),
        }
    }

    /// The same place in the same text, to read on from without leaving this one.
    #[inline(always)]
    pub fn ahead(&self) -> Lexer<'a>
        ensures { result ≡ self.now }
    {
        Lexer {
            text: self.text,
            rest: self.rest,
        }
    }

    /// Goes on where as many bytes are left as behind `ahead`; where no more are left here, it stays.
    // Its text stays the same one, so that a loop over tokens doesn't read that anew from `ahead`.
    #[inline(always)]
    pub fn follow(&mut self, ahead: &Lexer<'_>)
        ensures { self.new ≡ followed self.old ahead.now }
    {
        let passed = self.rest.len().saturating_sub(ahead.rest.len());
        self.rest = &self.rest[passed..];
    }

    /// The next token, as long as possible, with its span in the whole text; or `None` where only gaps are left. The
    /// error is the first fault: where no whole gap or token begins, as [`LexWhy`] says. Behind the end and a fault it
    /// answers the same again.
    #[inline(always)]
    pub fn next(&mut self) -> Result<Option<Token<'a>>, Stop>
        ensures { IsRead self.old self.new result }
    {
        match next_of(self.rest) {
            Next::Token(kind, here, rest) => {
                let span = span_of(self.text, here, rest);
                self.rest = rest;
                Ok(Some(Token {
                    kind,
                    text: span.text,
                    start: span.start,
                    stop: span.stop,
                }))
            }
            Next::End => Ok(None),
            Next::Stuck(at, why) => Err(stop_of(self.text, at, why)),
        }
    }

    /// What stands between the quotes of the next token, where that is a string in which nothing is escaped, and only
    /// blanks stand before it. Else nothing is read.
    #[inline(always)]
    pub fn next_plain(&mut self) -> Option<&'a str>
        ensures read { IfSome result (λ part. GivesPlain self.old part.now self.new) }
        ensures none { result ≡ None → self.new ≡ self.old }
    {
        let string = plain_string(self.rest)?;
        let span = span_of(self.text, string.here, string.rest);
        let last = span.text.len().saturating_sub(1);
        let part = span.text.get(1..last)?;
        self.rest = string.rest;
        Some(part)
    }

    /// An opening parenthesis and this word right behind it, where they are the next two tokens and only blanks, or one
    /// block comment between blanks, stand before them. Else nothing is read.
    #[inline(always)]
    pub fn next_opened(&mut self, word: &str) -> Option<()>
        ensures read { OnSome result (GivesOpened self.old word.now self.new) }
        ensures none { result ≡ None → self.new ≡ self.old }
    {
        let opened = opened_word(self.rest, word.as_bytes())?;
        self.rest = opened.rest;
        Some(())
    }

    /// A closing parenthesis, where it is the next token and only blanks stand before it. Else nothing is read.
    #[inline(always)]
    pub fn next_closed(&mut self) -> Option<()>
        ensures read { OnSome result (GivesClosed self.old self.new) }
        ensures none { result ≡ None → self.new ≡ self.old }
    {
        let rest = after_closing(self.rest)?;
        self.rest = rest;
        Some(())
    }

    /// Whether all that is left are gaps and tokens; the error is its first fault.
    pub fn check_rest(&self) -> Result<(), Stop>
        ensures { IsJudged self.now result }
    {
        let mut rest = self.rest;
        loop {
            match next_of(rest) {
                Next::Token(_, _, behind) => rest = behind,
                Next::End => return Ok(()),
                Next::Stuck(at, why) => return Err(stop_of(self.text, at, why)),
            }
        }
    }
}
