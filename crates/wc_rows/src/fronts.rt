//! Fronts of binaries that are accepted.

use crate::told::told_of;
use std::alloc::Global;

/// The most bytes of which each front is looked at.
const MOST: usize = 300;

/// Whether this is told of a front that is refused at its length because something is missing.
fn is_end(text: &str, length: usize) -> bool {
    let Some((place, reason)) = text.split_once(": ") else {
        return false;
    };
    let Some(place) = place.strip_prefix("byte ") else {
        return false;
    };
    place.parse::<usize>().ok() == Some(length)
        && (reason == "unexpected end" || reason == "function and code counts differ")
}

/// Whether a front is accepted, or refused at its length because something is missing.
fn is_cut(alloc: Global, front: &[u8]) -> bool {
    let told = told_of(alloc, front);
    !told.is_refused || is_end(told.answer.as_text(), front.len())
}

/// Whether each front of a binary that is accepted is so. Of longer inputs and of texts none is looked at.
pub fn fronts_are_cut(alloc: Global, input: &[u8]) -> bool {
    if input.first() != Some(&0) || input.len() > MOST {
        return true;
    }
    for length in 1..input.len() {
        if !is_cut(alloc, &input[..length]) {
            return false;
        }
    }
    true
}
