//! What strings stand for (Core 1.0, 6.3.3).

ghost use Rattle.std.specs.Prelude.{◌≡◌, ℕ, List, IfOk, IfSome};
ghost use Rattle.wc_tokens.specs.Standard.Strings.{IsString};
ghost use Rattle.wc_symbols.specs.Standard.Strings.{bytes_in};
ghost use Rattle.wc_symbols.specs.Standard.Tokens.{StringIs};

use crate::symbol::{Symbol, bare};
use std::alloc::{AllocError, Global};
use wc_syntax::Kind;
use wc_tokens::{Token, string_bytes};

/// What a string stands for: a piece of the text where nothing is escaped, else text of its own, or bytes that are no
/// UTF-8.
#[derive(Drop)]
pub enum StringValue<'a> {
    Plain(&'a str),
    Own(String),
    Bytes(Vec<u8>),
}

/// What a string token stands for. It is for a token whose text has a string's form, as each `Str` of `lex` has. A
/// string without escapes takes no memory; the only error is want of memory.
pub fn string_value<'a>(alloc: Global, token: &Token<'a>) -> Result<StringValue<'a>, AllocError>
    requires { (bytes : List ℕ) × IsString token.now.text.now bytes }
    ensures { IfOk result (λ value. IsString token.now.text.now (bytes_in value)) }
{
    match plain_part(token.text) {
        Some(text) => Ok(StringValue::Plain(text)),
        None => Ok(own_value(string_bytes(alloc, token)?)),
    }
}

/// How many bytes at the front of a long string show whether it may be text.
const FRONT: usize = 256;

/// Whether these bytes may be text, told by their front: a segment's are mostly none.
fn may_be_text(bytes: &[u8]) -> bool {
    let Some(front) = bytes.get(..FRONT) else {
        return true;
    };
    match str::from_utf8(front) {
        Ok(_) => true,
        // A character may go on behind the front.
        Err(error) => error.error_len().is_none(),
    }
}

/// These bytes, as text where they are UTF-8, so that nobody needs to look at them again.
fn own_value<'a>(bytes: Vec<u8>) -> StringValue<'a>
    ensures { bytes_in result ≡ bytes.items }
{
    if may_be_text(bytes.as_slice()) && simdutf8::is_utf8(bytes.as_slice()) {
        StringValue::Own(unsafe { String::from_utf8_unchecked(bytes) })
    } else {
        StringValue::Bytes(bytes)
    }
}

/// What stands between the quotes of a string, where nothing is escaped.
fn plain_part(text: &str) -> Option<&str>
    requires { (bytes : List ℕ) × IsString text.now bytes }
    ensures { IfSome result (λ part. IsString text.now part.now) }
{
    if text.as_bytes().contains(&b'\\') {
        return None;
    }
    let part = text.get(1..text.len().saturating_sub(1))?;
    Some(part)
}

/// What a string is that stands for this: a name where it is UTF-8 (Core 1.0, 6.3.4).
pub fn symbol_of_string(value: &StringValue<'_>) -> Symbol
    ensures { (text : List ℕ) → IsString text (bytes_in value.now) → StringIs text result }
{
    match value {
        StringValue::Plain(text) => {
            // A `str` is known to be UTF-8.
            let _ = text.as_bytes();
            bare(Kind::Name)
        }
        StringValue::Own(_) => bare(Kind::Name),
        StringValue::Bytes(bytes) => match str::from_utf8(bytes.as_slice()) {
            Ok(_) => bare(Kind::Name),
            Err(_) => bare(Kind::Text),
        },
    }
}
