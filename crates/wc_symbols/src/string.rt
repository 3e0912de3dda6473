//! Names among strings (Core 1.0, 6.3.3 and 6.3.4).

ghost use Rattle.std.specs.Prelude.{◌≡◌, ◌++◌, ℕ, List, IsTrue, IsUtf8, ◌↔◌};
ghost use Rattle.wc_tokens.specs.Reading.Elements.{bytes_of};
ghost use Rattle.wc_tokens.specs.Standard.Strings.{IsString};
ghost use Rattle.wc_symbols.specs.Reading.Utf8.{Tracks};
ghost use Rattle.wc_symbols.specs.Standard.Tokens.{StringIs};

use crate::symbol::{Symbol, bare};
use crate::utf8::{Tail, followed, is_whole, nothing_read};
use wc_syntax::Kind;
use wc_tokens::{Meaning, read_element};

/// What was read, and the bytes of a character.
fn followed_by_all(tail: Option<Tail>, bytes: &[u8]) -> Option<Tail>
    ensures { (read : List ℕ) → Tracks tail read → Tracks result (read ++ bytes.now) }
{
    let mut after = tail;
    for byte in bytes {
        after = followed(after, *byte);
    }
    after
}

/// What was read, and what an element stands for.
fn followed_by(tail: Option<Tail>, meaning: Meaning) -> Option<Tail>
    ensures { (read : List ℕ) → Tracks tail read → Tracks result (read ++ bytes_of meaning) }
{
    match meaning {
        Meaning::Byte(byte) => followed(tail, byte),
        Meaning::Character(character) => {
            let mut buffer = [0; 4];
            followed_by_all(tail, character.encode_utf8(&mut buffer).as_bytes())
        }
    }
}

/// Whether the bytes that a string stands for are UTF-8, read one element after another.
#[inline(never)]
fn is_name_by_elements(text: &str) -> bool
    requires { (bytes : List ℕ) × IsString text.now bytes }
    ensures { (bytes : List ℕ) → IsString text.now bytes → IsTrue result ↔ IsUtf8 bytes }
{
    let mut tail = nothing_read();
    let mut rest = &text.as_bytes()[1..];
    while let Some(element) = read_element(rest) {
        tail = followed_by(tail, element.meaning);
        if tail.is_none() {
            // No bytes behind make it right again.
            return false;
        }
        rest = element.rest;
    }
    is_whole(tail)
}

/// Whether the bytes that a string stands for are UTF-8.
fn is_name(text: &str) -> bool
    requires { (bytes : List ℕ) × IsString text.now bytes }
    ensures { (bytes : List ℕ) → IsString text.now bytes → IsTrue result ↔ IsUtf8 bytes }
{
    if !text.as_bytes().contains(&b'\\') {
        // With no escape the bytes are those of the text, which is UTF-8.
        return true;
    }
    is_name_by_elements(text)
}

/// What a string is.
pub fn string(text: &str) -> Symbol
    requires { (bytes : List ℕ) × IsString text.now bytes }
    ensures { StringIs text.now result }
{
    if is_name(text) {
        bare(Kind::Name)
    } else {
        bare(Kind::Text)
    }
}
