//! The elements of strings (Core 1.0, 6.3.3).

ghost use Rattle.std.specs.Prelude.{◌≡◌, option_map};
ghost use Rattle.wc_tokens.specs.Standard.Strings.{escaped, EndsElements};
ghost use Rattle.wc_tokens.specs.Reading.Elements.{read_byte, read_unicode, read_escape, read_element};
ghost use Rattle.wc_tokens.specs.Reading.Elements.{first_element};

use crate::bytes::behind;
use crate::digits::{digit_of, digits};
use crate::plain::plain_run;
use crate::simple::after_simple;

/// What an element of a string stands for.
#[derive(Clone, Copy)]
pub enum Meaning {
    /// One byte.
    Byte(u8),
    /// The bytes of a character.
    Character(char),
}

/// One element of a string.
#[derive(Clone, Copy)]
pub struct Element<'a> {
    /// What it stands for.
    pub meaning: Meaning,
    /// What follows it.
    pub rest: &'a [u8],
}

/// What the letter behind a backslash stands for.
fn escaped(letter: u8) -> Option<u8>
    ensures { result ≡ escaped letter }
{
    match letter {
        b't' => Some(b'\t'),
        b'n' => Some(b'\n'),
        b'r' => Some(b'\r'),
        b'"' | b'\'' | b'\\' => Some(letter),
        _ => None,
    }
}

/// A byte by its two hexadecimal digits.
#[inline(always)]
#[tactic(auto, unfolding(crate::specs::Reading::Elements::read_byte))]
fn read_byte(high: u8, text: &[u8]) -> Option<Element<'_>>
    ensures { option_map first_element result ≡ read_byte high text.now }
{
    let (low, rest) = text.split_first()?;
    let (high, low) = (digit_of(high), digit_of(*low));
    if high < 16 && low < 16 {
        let meaning = Meaning::Byte((16 * high + low) as u8);
        return Some(Element { meaning, rest });
    }
    None
}

/// A character by its number in braces.
// It is rare, so its loop stays out of those over elements.
#[inline(never)]
#[tactic(auto, unfolding(crate::specs::Reading::Elements::read_unicode))]
fn read_unicode(text: &[u8]) -> Option<Element<'_>>
    ensures { option_map first_element result ≡ read_unicode text.now }
{
    let number = behind(text, b'{')?;
    let run = digits(number, 16)?;
    let rest = behind(&number[run.len..], b'}')?;
    let code = u32::try_from(run.value?).ok()?;
    let meaning = Meaning::Character(char::from_u32(code)?);
    Some(Element { meaning, rest })
}

/// What a backslash begins.
#[inline(always)]
#[tactic(auto, unfolding(crate::specs::Reading::Elements::read_escape))]
fn read_escape(text: &[u8]) -> Option<Element<'_>>
    ensures { option_map first_element result ≡ read_escape text.now }
{
    let (letter, rest) = text.split_first()?;
    match escaped(*letter) {
        Some(value) => Some(Element {
            meaning: Meaning::Byte(value),
            rest,
        }),
        None if *letter == b'u' => read_unicode(rest),
        None => read_byte(*letter, rest),
    }
}

/// The element at the front of a text.
#[inline(always)]
#[tactic(auto, unfolding(crate::specs::Reading::Elements::read_element))]
pub fn read_element(text: &[u8]) -> Option<Element<'_>>
    ensures { option_map first_element result ≡ read_element text.now }
{
    let (first, rest) = text.split_first()?;
    match *first {
        b'\\' => read_escape(rest),
        b'"' | 0..=31 | 127 => None,
        plain => Some(Element {
            meaning: Meaning::Byte(plain),
            rest,
        }),
    }
}

/// What follows the elements at the front of a text.
// Strings are few, so they stay out of the loop over tokens.
#[inline(never)]
pub fn after_elements(text: &[u8]) -> &[u8]
    ensures { EndsElements text.now result.now }
{
    // Most strings are of plain bytes alone.
    let mut rest = &text[plain_run(text)..];
    while let Some(element) = read_element(rest) {
        rest = after_simple(element.rest);
    }
    rest
}
