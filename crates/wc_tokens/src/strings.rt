//! What strings stand for (Core 1.0, 6.3.3).

ghost use Rattle.std.specs.Prelude.{◌≡◌, ◌++◌, ℕ, List, IfOk, OnOk};
ghost use Rattle.wc_tokens.specs.Reading.Elements.{bytes_of};
ghost use Rattle.wc_tokens.specs.Standard.Strings.{IsString};

use crate::elements::{Meaning, read_element};
use crate::simple::{ROOM, plain_chunks, read_simple};
use crate::token::Token;
use std::alloc::{AllocError, Global};

/// Puts what an element stands for behind the bytes.
fn push_meaning(bytes: &mut Vec<u8>, meaning: Meaning) -> Result<(), AllocError>
    ensures { OnOk result (bytes.new.items ≡ bytes.old.items ++ bytes_of meaning) }
{
    match meaning {
        Meaning::Byte(byte) => bytes.push(byte)?,
        Meaning::Character(character) => {
            let mut buffer = [0; 4];
            bytes.extend_from_slice(character.encode_utf8(&mut buffer).as_bytes())?;
        }
    }
    Ok(())
}

/// The bytes that a string token stands for. It is for a token whose text has a string's form, as each `Str`
/// of `lex` has; the only error is want of memory.
pub fn string_bytes(alloc: Global, token: &Token<'_>) -> Result<Vec<u8>, AllocError>
    requires { (bytes : List ℕ) × IsString token.now.text.now bytes }
    ensures string { IfOk result (λ bytes. IsString token.now.text.now bytes.items) }
    ensures only { IfOk result (λ v. (bytes : List ℕ) → IsString token.now.text.now bytes → v.items ≡ bytes) }
{
    // An element stands for no more bytes than it has.
    let mut bytes = Vec::with_capacity(alloc, token.text.len().saturating_sub(2))?;
    let mut some = [0; ROOM];
    let mut rest = &token.text.as_bytes()[1..];
    while let Some(element) = read_element(rest) {
        push_meaning(&mut bytes, element.meaning)?;
        let (plain, others) = element.rest.split_at(plain_chunks(element.rest));
        bytes.extend_from_slice(plain)?;
        let run = read_simple(others, &mut some);
        bytes.extend_from_slice(&some[..run.made])?;
        rest = &others[run.len..];
    }
    Ok(bytes)
}
