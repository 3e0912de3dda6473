//! What the words of a command line ask for.

use crate::sheet::Sheet;
use wc_canon::VERSION;
use wc_cli::{Line, lines, status_of};

/// The words of a text.
pub fn words_of<'a>(told: &mut Sheet, text: &'a str) -> Vec<&'a str> {
    match text.split(' ').collect(told.alloc()) {
        Ok(words) => words,
        Err(_) => {
            told.refuse();
            Vec::new(told.alloc())
        }
    }
}

/// Tells the lines that words name, or the status of their error.
fn tell_lines_of(told: &mut Sheet, words: &[&str]) {
    match lines(told.alloc(), words) {
        Ok(Some(lines)) => told.put_debug(&lines),
        Ok(None) => told.put_text("none"),
        Err(error) => told.put_number("status ", u64::from(status_of(&error))),
    }
}

/// Tells the lines that the words of a text name, or the status of their error.
pub fn tell_lines(told: &mut Sheet, text: &str) {
    let words = words_of(told, text);
    tell_lines_of(told, words.as_slice());
}

/// Tells for each of these lines whether bytes that aren't text would go to standard output.
fn tell_which_are_raw(told: &mut Sheet, lines: &[Line<'_>]) {
    told.put_text("[");
    for line in lines {
        if told.len() > 1 {
            told.put_text(", ");
        }
        told.put_debug(&line.is_raw());
    }
    told.put_text("]");
}

/// The same of the lines that words name.
fn tell_raw_of(told: &mut Sheet, words: &[&str]) {
    match lines(told.alloc(), words) {
        Ok(Some(lines)) => tell_which_are_raw(told, lines.as_slice()),
        _ => told.put_text("no lines"),
    }
}

/// The same of the lines that the words of a text name.
pub fn tell_raw(told: &mut Sheet, text: &str) {
    let words = words_of(told, text);
    tell_raw_of(told, words.as_slice());
}

/// Tells the text of the error that words are, and nothing where they are none.
fn tell_error_of(told: &mut Sheet, words: &[&str]) {
    if let Err(error) = lines(told.alloc(), words) {
        told.put_shown(&error);
    }
}

/// The same of the words of a text.
pub fn tell_error(told: &mut Sheet, text: &str) {
    let words = words_of(told, text);
    tell_error_of(told, words.as_slice());
}

/// Whether this is what `--version` tells.
pub fn is_version_line(text: &str) -> bool {
    match text.strip_prefix("wcanon ") {
        Some(rest) => rest.strip_suffix('\n') == Some(VERSION),
        None => false,
    }
}
