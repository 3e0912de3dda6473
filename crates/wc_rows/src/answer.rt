//! How the answers of rows are written.
//!
//! What the program says of the input:
//! - `module 0104` is the preamble of a binary and the bytes of these digits: the canonical bytes;
//! - `9 bytes` says only how many they are;
//! - `text TEXT` is the printed text;
//! - `same INPUT` and `different INPUT` are what the comparison with another tells, and `beside INPUT: A: ..` is what
//!   it tells of a refused one;
//! - anything else is the refusal, as it is rendered.
//!
//! What layers below say:
//! - `grammar`: the grammar takes the input, whatever its names and the rules say;
//! - `binary 0104`: the canonical bytes of what the input spells, whatever rules it breaks;
//! - `layout TEXT`: its printed text, and `kept ROLES` what is kept of that;
//! - `tokens`, `symbol`: the tokens of the input, and what its only token is to the grammar;
//! - `roles`, `fault`, `sentence`, `words`: what is kept of the input, its first fault, that each of its fronts begins
//!   a text, and the fault of each word behind it, where two instructions may be nested.
//!
//! What readers and writers see, with what is told behind a colon: `runs` says what is asked by `run`, `accepted`,
//! `answered`, `compared`, `decoded` and `fronted`.
//!
//! Of the words of a command line: `lines` are those that they name, and `raw` whether the answers are bytes for
//! standard output; `shows` is a part of help, and `version` is what that tells; `acts` says what is done for them,
//! `twice` what over the same devices again. `rendered` and `displayed` are the texts of a refusal and of a fault of a
//! run.

use crate::acts::{tell_acted, tell_twice};
use crate::calls::fault_of_calls;
use crate::faults::{tell_refusal_of, tell_run_fault_of};
use crate::grammar::{tell_fault, tell_roles, tell_sentence, tell_words};
use crate::input::{binary_of, input_of, parts_of, text_of};
use crate::kept::kept_agree;
use crate::layers::{tell_printed, tell_spelled};
use crate::lines::{is_version_line, tell_error, tell_lines, tell_raw};
use crate::runs::tell_asked;
use crate::sheet::Sheet;
use crate::told::{Told, tell_refusal, told_of};
use crate::words::{tell_symbol, tell_tokens};
use std::str;
use wc_canon::{Refusal, compare, normalise, to_text};

/// Whether these are the bytes of digits. Others are told by theirs.
fn are_bytes(found: &mut Sheet, bytes: &[u8], digits: &str) -> bool {
    let wanted = binary_of(found, digits);
    if bytes == wanted.as_slice() {
        return true;
    }
    found.put_digits(bytes);
    false
}

/// Whether the grammar takes an input's kept tokens.
fn is_kept(found: &mut Sheet, input: &[u8]) -> bool {
    found.put_text("its kept tokens are refused");
    kept_agree(found.alloc(), input, None)
}

/// Whether the grammar takes the input, whatever its names and the rules say.
fn is_grammatical(found: &mut Sheet, input: &[u8]) -> bool {
    match normalise(found.alloc(), input) {
        Ok(_) | Err(Refusal::Names { .. } | Refusal::Check { .. }) => is_kept(found, input),
        Err(refusal) => {
            tell_refusal(found, &refusal);
            false
        }
    }
}

/// Whether a row says how many bytes there are.
fn is_count(bytes: &[u8], wanted: &str) -> bool {
    match wanted.strip_suffix(" bytes") {
        Some(number) => number.parse::<usize>().ok() == Some(bytes.len()),
        None => false,
    }
}

/// Whether these canonical bytes are wanted. Others are told by their digits.
fn is_module(found: &mut Sheet, bytes: &[u8], wanted: &str) -> bool {
    if is_count(bytes, wanted) {
        return true;
    }
    match wanted.strip_prefix("module") {
        Some(digits) => are_bytes(found, bytes, digits),
        None => {
            found.put_digits(bytes);
            false
        }
    }
}

/// Whether what is told of an input is wanted.
fn is_told(found: &mut Sheet, told: &Told, wanted: &str) -> bool {
    found.note_of(&told.answer);
    if !told.is_refused {
        return is_module(found, told.answer.as_slice(), wanted);
    }
    if told.answer.is(wanted) {
        return true;
    }
    found.put(told.answer.as_slice());
    false
}

/// Whether the calls agree on an input of which this is told.
fn calls_agree(found: &mut Sheet, input: &[u8], told: &Told) -> bool {
    match fault_of_calls(found.alloc(), input, told) {
        Some(fault) => {
            found.put_text(fault);
            false
        }
        None => true,
    }
}

/// Whether the answer to the input is wanted, of all calls.
fn is_answer(found: &mut Sheet, input: &[u8], wanted: &str) -> bool {
    let told = told_of(found.alloc(), input);
    is_told(found, &told, wanted) && calls_agree(found, input, &told)
}

/// Whether this is the printed text of the input.
fn is_text(found: &mut Sheet, input: &[u8], wanted: &[u8]) -> bool {
    match to_text(found.alloc(), input) {
        Ok(text) => {
            found.put_text(text.as_str());
            found.as_slice() == wanted
        }
        Err(refusal) => {
            tell_refusal(found, &refusal);
            false
        }
    }
}

/// The same of a text of a row.
fn is_text_of(found: &mut Sheet, input: &[u8], rest: &str) -> bool {
    let wanted = text_of(found, rest);
    is_text(found, input, wanted.as_slice())
}

/// Tells what the comparison of the input with another tells.
fn tell_comparison(found: &mut Sheet, a: &[u8], b: &[u8]) {
    match compare(found.alloc(), a, b) {
        Ok(told) => found.put_debug(&told),
        Err((side, refusal)) => {
            found.put_debug(&side);
            found.put_text(": ");
            tell_refusal(found, &refusal);
        }
    }
}

/// Whether the comparison of the input with another tells this.
fn is_compared(found: &mut Sheet, input: &[u8], other: &str, wanted: &str) -> bool {
    let other = input_of(found, other);
    tell_comparison(found, input, other.as_slice());
    found.is(wanted)
}

/// Whether the comparison of the input with another tells what stands behind the colon.
fn is_beside(found: &mut Sheet, input: &[u8], rest: &str) -> bool {
    let (other, told) = parts_of(found, rest, ": ", "reading another input");
    is_compared(found, input, other, told)
}

/// Whether the input spells these bytes.
fn is_spelled(found: &mut Sheet, input: &[u8], digits: &str) -> bool {
    let mut bytes = Sheet::new(found.alloc());
    tell_spelled(&mut bytes, input);
    found.note_of(&bytes);
    are_bytes(found, bytes.as_slice(), digits)
}

/// Whether this is the printed text of what the input spells.
fn is_printed(found: &mut Sheet, input: &[u8], rest: &str) -> bool {
    let wanted = text_of(found, rest);
    tell_printed(found, input);
    found.as_slice() == wanted.as_slice()
}

/// Whether these tokens are kept of the printed text of what the input spells.
fn is_kept_of_text(found: &mut Sheet, input: &[u8], rest: &str) -> bool {
    let mut text = Sheet::new(found.alloc());
    tell_printed(&mut text, input);
    found.note_of(&text);
    tell_roles(found, text.as_slice());
    found.is(rest)
}

/// Whether readers and writers were told of the input what stands behind the colon.
fn is_run(found: &mut Sheet, input: &[u8], word: &str, rest: &str) -> bool {
    let (asked, told) = parts_of(found, rest, ": ", "reading what is asked");
    tell_asked(found, input, word, asked);
    found.is(told)
}

/// Whether this is done for a command line.
fn is_done(found: &mut Sheet, text: &str, rest: &str) -> bool {
    let (asked, told) = parts_of(found, rest, " -> ", "reading what is asked");
    let wanted = text_of(found, told);
    tell_acted(found, text, asked, wanted.as_text());
    found.as_slice() == wanted.as_slice()
}

/// Whether help has such a part.
fn has_help(found: &mut Sheet, text: &str, part: &str) -> bool {
    let wanted = text_of(found, part);
    let Ok(wanted) = str::from_utf8(wanted.as_slice()) else {
        found.note("reading a part of help");
        return false;
    };
    tell_error(found, text);
    found.as_text().contains(wanted)
}

/// Whether `--version` tells what it is to tell.
fn is_version(found: &mut Sheet, text: &str) -> bool {
    tell_error(found, text);
    is_version_line(found.as_text())
}

/// Whether the words of a command line ask for this.
fn is_line(found: &mut Sheet, text: &str, word: &str, rest: &str) -> bool {
    match word {
        "shows" => return has_help(found, text, rest),
        "acts" => return is_done(found, text, rest),
        "version" => return is_version(found, text),
        "lines" => tell_lines(found, text),
        "raw" => tell_raw(found, text),
        "rendered" => tell_refusal_of(found, text),
        _ => tell_run_fault_of(found, text),
    }
    found.is(rest)
}

/// The same of the words of an input.
fn is_line_of(found: &mut Sheet, input: &[u8], word: &str, rest: &str) -> bool {
    let Ok(text) = str::from_utf8(input) else {
        found.note("reading the words of a line");
        return false;
    };
    is_line(found, text, word, rest)
}

/// Whether the text of an input has this, by its tokens.
fn is_by_tokens(found: &mut Sheet, input: &[u8], word: &str, rest: &str) -> bool {
    match word {
        "roles" => tell_roles(found, input),
        "tokens" => tell_tokens(found, input),
        "symbol" => tell_symbol(found, input),
        "fault" => tell_fault(found, input),
        "words" => tell_words(found, input),
        _ => tell_sentence(found, input),
    }
    found.is(rest)
}

/// Whether the input has the answer of the row. What was found is told, which is no matter where it has.
pub fn is_answered(found: &mut Sheet, input: &[u8], wanted: &str) -> bool {
    let (word, rest) = wanted.split_once(' ').unwrap_or((wanted, ""));
    match word {
        "text" => is_text_of(found, input, rest),
        "same" => is_compared(found, input, rest, "Same"),
        "different" => is_compared(found, input, rest, "Different"),
        "beside" => is_beside(found, input, rest),
        "grammar" => is_grammatical(found, input),
        "binary" => is_spelled(found, input, rest),
        "layout" => is_printed(found, input, rest),
        "kept" => is_kept_of_text(found, input, rest),
        "sentence" => is_by_tokens(found, input, word, "."),
        "roles" | "tokens" | "symbol" | "fault" | "words" => {
            is_by_tokens(found, input, word, rest)
        }
        "run" | "accepted" | "answered" | "compared" | "decoded" | "fronted" => {
            is_run(found, input, word, rest)
        }
        "lines" | "raw" | "shows" | "version" | "acts" | "rendered" | "displayed" => {
            is_line_of(found, input, word, rest)
        }
        "twice" => {
            tell_twice(found, input, rest);
            found.is("02")
        }
        _ => is_answer(found, input, wanted),
    }
}
