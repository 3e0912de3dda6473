//! What runs tell of an input that a reader gives in pieces.

use crate::pieces::{Pace, Pieces};
use crate::sheet::Sheet;
use crate::told::{Told, tell_refusal};
use std::alloc::Global;
use wc_canon::{Job, RunFault, run};
use wc_device::Device;

/// How many bytes a call gives at most: one, a few, and about as many as a buffer holds.
const PIECES: [usize; 5] = [1, 3, 4095, 4096, 4097];

/// The most bytes that one call gives.
const BUFFER: usize = 4096;

/// Tells why there is no answer, in words.
pub fn tell_fault(told: &mut Sheet, fault: &RunFault) {
    match fault {
        RunFault::Refused(refusal) => tell_refusal(told, refusal),
        RunFault::Read { at } => told.put_number("read ", *at),
        RunFault::Write { written } => told.put_number("written ", *written),
        RunFault::Memory => told.put_text("memory"),
    }
}

/// Tells what a run told, in words.
pub fn tell_outcome(told: &mut Sheet, outcome: Result<u64, RunFault>) {
    match outcome {
        Ok(count) => told.put_number("wrote ", count),
        Err(fault) => tell_fault(told, &fault),
    }
}

/// Whether a run tells these words and writes these bytes.
fn is_run(alloc: Global, job: Job, reader: Pieces<'_>, words: &str, bytes: &[u8]) -> bool {
    let mut input = Device::new(reader);
    let mut output = Device::new(Vec::new(alloc));
    let mut told = Sheet::new(alloc);
    tell_outcome(&mut told, run(alloc, job, &mut input, &mut output));
    told.is(words) && output.inner().as_slice() == bytes
}

/// A reader of pieces of which no call fails.
fn whole(bytes: &[u8], piece: usize) -> Pieces<'_> {
    Pieces::new(bytes, Pace { piece, fails_at: 0 })
}

/// Whether runs of a job tell these words and write these bytes, in whatever pieces the input comes.
fn are_run(alloc: Global, job: Job, input: &[u8], words: &str, bytes: &[u8]) -> bool {
    for piece in PIECES {
        if !is_run(alloc, job, whole(input, piece), words, bytes) {
            return false;
        }
    }
    true
}

/// Whether runs of a job write these bytes.
fn are_written(alloc: Global, job: Job, input: &[u8], bytes: &[u8]) -> bool {
    let mut words = Sheet::new(alloc);
    words.put_number("wrote ", bytes.len() as u64);
    are_run(alloc, job, input, words.as_text(), bytes)
}

/// Whether runs write the canonical bytes and the printed text.
pub fn readers_give(alloc: Global, input: &[u8], bytes: &[u8], text: &[u8]) -> bool {
    are_written(alloc, Job::Binary, input, bytes) && are_written(alloc, Job::Text, input, text)
}

/// Whether runs refuse the input so, and write nothing.
pub fn readers_refuse(alloc: Global, input: &[u8], text: &str) -> bool {
    are_run(alloc, Job::Binary, input, text, b"") && are_run(alloc, Job::Text, input, text, b"")
}

/// Whether a refusal of an input shows before its end is known: a fault of a binary's bytes.
fn shows_early(input: &[u8], text: &str) -> bool {
    input.first() == Some(&0)
        && text.starts_with("byte ")
        && !text.ends_with("unexpected end")
        && !text.ends_with("function and code counts differ")
}

/// The reasons that show at the very byte of the fault. A wrong type may be told by an integer of several bytes.
const AT_ONCE: [&str; 10] = [
    "bad magic",
    "unsupported version",
    "unknown section id",
    "section out of order",
    "integer out of range",
    "float is not supported",
    "unknown tag",
    "unknown opcode",
    "zero byte expected",
    "nesting too deep",
];

/// How many bytes are read where a binary is refused so at its fault's byte, byte by byte.
fn reads_to_fault(input: &[u8], text: &str) -> Option<u32> {
    let (place, reason) = text.strip_prefix("byte ")?.split_once(": ")?;
    if input.first() != Some(&0) || !AT_ONCE.contains(&reason) {
        return None;
    }
    place.parse::<u32>().ok()?.checked_add(1)
}

/// Whether a run refuses the input so though the read behind the fault's byte fails, where the fault shows there.
pub fn refused_at_once(alloc: Global, input: &[u8], text: &str) -> bool {
    let Some(reads) = reads_to_fault(input, text) else {
        return true;
    };
    let pace = Pace {
        piece: 1,
        fails_at: reads.saturating_add(1),
    };
    is_run(alloc, Job::Binary, Pieces::new(input, pace), text, b"")
}

/// Tells what is told where the read behind the last byte fails: a fault that showed before, or else the failure.
fn tell_failure(words: &mut Sheet, input: &[u8], told: &Told) {
    if told.is_refused && shows_early(input, told.answer.as_text()) {
        words.put(told.answer.as_slice());
    } else {
        words.put_number("read ", input.len() as u64);
    }
}

/// Whether a run tells these words and writes nothing where one call gives all and the next one fails.
fn fails(alloc: Global, job: Job, input: &[u8], words: &str) -> bool {
    let pace = Pace {
        piece: BUFFER,
        fails_at: 2,
    };
    is_run(alloc, job, Pieces::new(input, pace), words, b"")
}

/// Whether runs tell so where one call gives all and the next one fails. Of longer inputs nothing is asked.
pub fn readers_fail(alloc: Global, input: &[u8], told: &Told) -> bool {
    if input.is_empty() || input.len() > BUFFER {
        return true;
    }
    let mut words = Sheet::new(alloc);
    tell_failure(&mut words, input, told);
    fails(alloc, Job::Binary, input, words.as_text())
        && fails(alloc, Job::Text, input, words.as_text())
}
