//! What is told of an input.

use crate::sheet::Sheet;
use std::alloc::Global;
use wc_canon::{Refusal, normalise, render};

/// What is told of an input: its canonical bytes, or the text of why it has none.
#[derive(Drop)]
pub struct Told {
    pub answer: Sheet,
    pub is_refused: bool,
}

/// Tells a refusal, as it is rendered.
pub fn tell_refusal(told: &mut Sheet, refusal: &Refusal) {
    match render(told.alloc(), refusal) {
        Ok(text) => told.put_text(text.as_str()),
        Err(_) => told.refuse(),
    }
}

/// Tells the canonical bytes of an input, or why it has none. Whether it is refused is answered.
fn tell_answer(told: &mut Sheet, input: &[u8]) -> bool {
    match normalise(told.alloc(), input) {
        Ok(bytes) => {
            told.put(&bytes);
            false
        }
        Err(refusal) => {
            tell_refusal(told, &refusal);
            true
        }
    }
}

/// What `normalise` tells of an input.
pub fn told_of(alloc: Global, input: &[u8]) -> Told {
    let mut answer = Sheet::new(alloc);
    let is_refused = tell_answer(&mut answer, input);
    Told { answer, is_refused }
}

/// Whether this is told of an input: these bytes.
pub fn has_bytes(alloc: Global, input: &[u8], bytes: &[u8]) -> bool {
    match normalise(alloc, input) {
        Ok(answer) => answer.as_slice() == bytes,
        Err(_) => false,
    }
}

/// Whether a refusal is rendered so.
fn is_rendered(alloc: Global, refusal: &Refusal, text: &str) -> bool {
    let mut told = Sheet::new(alloc);
    tell_refusal(&mut told, refusal);
    told.is(text)
}

/// Whether a call refused its input so.
pub fn is_refused<T: Drop>(alloc: Global, outcome: Result<T, Refusal>, text: &str) -> bool {
    match outcome {
        Ok(_) => false,
        Err(refusal) => is_rendered(alloc, &refusal, text),
    }
}
