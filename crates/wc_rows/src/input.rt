//! How the inputs of rows are written.
//!
//! `hex 0061` are the bytes of these digits, and `module 0104` the preamble of a binary and such bytes. Anything else
//! is a text, in which `%0a` is the byte of these digits. In all of them `{3* nop}` stands for three times ` nop`.

use crate::sheet::Sheet;
use hex::decode;

/// What each binary begins with.
const PREAMBLE: &[u8] = b"\0asm\x01\0\0\0";

/// Puts a piece so often as the digits say.
fn put_often(sheet: &mut Sheet, times: &str, piece: &str) {
    let Ok(times) = times.parse::<u32>() else {
        sheet.note("reading how often a piece stands there");
        return;
    };
    for _ in 0..times {
        sheet.put_decoded(piece);
    }
}

/// The two parts of a text before and behind a mark. Where it has none, `asking` notes this fault.
pub fn parts_of<'a>(
    asking: &mut Sheet,
    text: &'a str,
    mark: &str,
    fault: &'static str,
) -> (&'a str, &'a str) {
    match text.split_once(mark) {
        Some(parts) => parts,
        None => {
            asking.note(fault);
            ("", "")
        }
    }
}

/// Puts a piece behind a brace: what is repeated, the other brace, and what stands behind it.
fn put_behind_brace(sheet: &mut Sheet, piece: &str) {
    let (repeated, behind) = parts_of(sheet, piece, "}", "reading a repeated piece");
    let (times, piece) = parts_of(sheet, repeated, "*", "reading a repeated piece");
    put_often(sheet, times, piece);
    sheet.put_decoded(behind);
}

/// Puts the bytes of a text.
fn put_row(sheet: &mut Sheet, row: &str) {
    let mut pieces = row.split('{');
    if let Some(first) = pieces.next() {
        sheet.put_decoded(first);
    }
    for piece in pieces {
        put_behind_brace(sheet, piece);
    }
}

/// Puts the bytes of hexadecimal digits.
fn put_bytes_of(sheet: &mut Sheet, digits: &[u8]) {
    match decode(sheet.alloc(), digits) {
        Ok(bytes) => sheet.put(&bytes),
        Err(_) => sheet.note("reading hexadecimal digits"),
    }
}

/// Puts the bytes of the digits of a row.
fn put_hex(sheet: &mut Sheet, row: &str) {
    let digits = text_of(sheet, row.trim());
    put_bytes_of(sheet, digits.as_slice());
}

/// The bytes of a text. Where it can't be read, `asking` notes why.
pub fn text_of(asking: &mut Sheet, row: &str) -> Sheet {
    let mut sheet = Sheet::new(asking.alloc());
    put_row(&mut sheet, row);
    asking.note_of(&sheet);
    sheet
}

/// The binary of which these are the digits behind its preamble.
pub fn binary_of(asking: &mut Sheet, row: &str) -> Sheet {
    let mut sheet = Sheet::new(asking.alloc());
    sheet.put(PREAMBLE);
    put_hex(&mut sheet, row);
    asking.note_of(&sheet);
    sheet
}

/// The bytes of hexadecimal digits.
fn bytes_of(asking: &mut Sheet, row: &str) -> Sheet {
    let mut sheet = Sheet::new(asking.alloc());
    put_hex(&mut sheet, row);
    asking.note_of(&sheet);
    sheet
}

/// The bytes of an input.
pub fn input_of(asking: &mut Sheet, input: &str) -> Sheet {
    if let Some(digits) = input.strip_prefix("hex ") {
        return bytes_of(asking, digits);
    }
    if let Some(digits) = input.strip_prefix("module") {
        return binary_of(asking, digits);
    }
    text_of(asking, input)
}
