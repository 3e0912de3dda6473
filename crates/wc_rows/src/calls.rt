//! Whether the calls agree on an input.

use crate::fronts::fronts_are_cut;
use crate::kept::kept_agree;
use crate::readers::{readers_fail, readers_give, readers_refuse, refused_at_once};
use crate::told::{Told, has_bytes, is_refused};
use std::alloc::Global;
use wc_canon::{Comparison, accept, compare, is_canonical, to_text};

/// Whether the printed text of an input has these canonical bytes, and is what runs write.
fn text_agrees(alloc: Global, input: &[u8], bytes: &[u8]) -> bool {
    match to_text(alloc, input) {
        Ok(text) => {
            has_bytes(alloc, text.as_bytes(), bytes)
                && readers_give(alloc, input, bytes, text.as_bytes())
        }
        Err(_) => false,
    }
}

/// What disagrees on an input with these canonical bytes.
fn disagreement(alloc: Global, input: &[u8], bytes: &[u8]) -> Option<&'static str> {
    if accept(alloc, input).is_err() {
        return Some("it is not accepted");
    }
    if !has_bytes(alloc, bytes, bytes) {
        return Some("the answer is not its own");
    }
    if !matches!(is_canonical(alloc, bytes), Ok(true)) {
        return Some("the answer is not canonical");
    }
    if !matches!(compare(alloc, input, bytes), Ok(Comparison::Same)) {
        return Some("the answer is another module");
    }
    if !text_agrees(alloc, input, bytes) {
        return Some("what is written differs");
    }
    if !fronts_are_cut(alloc, input) {
        return Some("a front is refused elsewhere");
    }
    if !kept_agree(alloc, input, None) {
        return Some("its kept tokens are refused");
    }
    None
}

/// What disagrees on an input that is refused so.
fn other_refusal(alloc: Global, input: &[u8], text: &str) -> Option<&'static str> {
    if !is_refused(alloc, accept(alloc, input), text) {
        return Some("its check differs");
    }
    if !is_refused(alloc, is_canonical(alloc, input), text) {
        return Some("whether it is canonical differs");
    }
    if !is_refused(alloc, to_text(alloc, input), text) {
        return Some("its printing differs");
    }
    if !readers_refuse(alloc, input, text) {
        return Some("its reading differs");
    }
    if !refused_at_once(alloc, input, text) {
        return Some("a read that fails behind its byte differs");
    }
    if !kept_agree(alloc, input, Some(text)) {
        return Some("what its kept tokens say differs");
    }
    None
}

/// What disagrees on an input of which this is told.
pub fn fault_of_calls(alloc: Global, input: &[u8], told: &Told) -> Option<&'static str> {
    let fault = if told.is_refused {
        other_refusal(alloc, input, told.answer.as_text())
    } else {
        disagreement(alloc, input, told.answer.as_slice())
    };
    if fault.is_none() && !readers_fail(alloc, input, told) {
        return Some("a read that fails behind it differs");
    }
    fault
}
