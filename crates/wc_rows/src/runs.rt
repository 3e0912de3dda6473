//! What calls over readers tell of an input, and what went out of it. `pieces` says how a row writes a reader or a
//! writer. A row asks
//! - `run JOB READER WRITER`: what a run told, how many bytes of the answer went out, and how often it was flushed;
//! - `accepted READER`, `answered READER`: whether it is accepted, and its answer;
//! - `compared READER READER INPUT`: what its comparison with another input tells;
//! - `decoded READER`, `fronted READER`: what is decoded of it, where the first read comes before that or not, whether
//!   at most 4,096 bytes were read behind the fault's place, and how the device was left.

use crate::input::{input_of, parts_of};
use crate::pieces::{Pieces, Taker, pieces_of, taker_of};
use crate::readers::{tell_fault, tell_outcome};
use crate::sheet::Sheet;
use std::io::Read;
use wc_ast::Module;
use wc_binary::{BinFault, decode_from};
use wc_canon::{Job, accept_from, compare_from, normalise, normalise_from, run, to_text};
use wc_device::Device;

/// The job of a word.
fn job_of(told: &mut Sheet, word: &str) -> Job {
    match word {
        "binary" => Job::Binary,
        "text" => Job::Text,
        _ => {
            told.note("no such job");
            Job::Binary
        }
    }
}

/// Puts the canonical bytes of an input, and no byte where it is refused.
fn put_bytes(answer: &mut Sheet, input: &[u8]) {
    if let Ok(bytes) = normalise(answer.alloc(), input) {
        answer.put(&bytes);
    }
}

/// Puts its printed text, and no byte where it is refused.
fn put_printed(answer: &mut Sheet, input: &[u8]) {
    if let Ok(text) = to_text(answer.alloc(), input) {
        answer.put_text(text.as_str());
    }
}

/// What a job answers over memory, and no byte where the input is refused.
fn answer_of(told: &mut Sheet, job: Job, input: &[u8]) -> Sheet {
    let mut answer = Sheet::new(told.alloc());
    match job {
        Job::Binary => put_bytes(&mut answer, input),
        Job::Text => put_printed(&mut answer, input),
    }
    told.note_of(&answer);
    answer
}

/// Tells what a writer took of an answer, and its flushes.
fn tell_taken(told: &mut Sheet, taker: &Taker, answer: &[u8]) {
    let taken = taker.taken.as_slice();
    told.put_number(", ", taken.len() as u64);
    told.put_text(if answer.starts_with(taken) {
        " bytes"
    } else {
        " other bytes"
    });
    told.put_number(", ", u64::from(taker.flushes));
    told.put_text(" flushes");
}

/// Tells what a run told, and what went out.
fn tell_run(told: &mut Sheet, job: Job, input: Pieces<'_>, taker: Taker, answer: &[u8]) {
    let mut reader = Device::new(input);
    let mut writer = Device::new(taker);
    let outcome = run(told.alloc(), job, &mut reader, &mut writer);
    tell_outcome(told, outcome);
    tell_taken(told, writer.inner(), answer);
}

/// The same of the job, the reader and the writer that are asked for.
fn tell_asked_run(told: &mut Sheet, input: &[u8], asked: &str) {
    let (job, devices) = parts_of(told, asked, " ", "reading a job");
    let (reader, writer) = parts_of(told, devices, " ", "reading a writer");
    let job = job_of(told, job);
    let answer = answer_of(told, job, input);
    let pieces = pieces_of(told, input, reader);
    let taker = taker_of(told, writer);
    tell_run(told, job, pieces, taker, answer.as_slice());
}

/// Tells whether a reader is accepted, and how many bytes were read of it.
fn tell_accepted(told: &mut Sheet, input: Pieces<'_>) {
    let mut reader = Device::new(input);
    match accept_from(told.alloc(), &mut reader) {
        Ok(()) => told.put_text("ok"),
        Err(fault) => tell_fault(told, &fault),
    }
    told.put_number(", ", reader.count());
    told.put_text(" read");
}

/// Tells whether a reader has the answer of an input.
fn tell_answered(told: &mut Sheet, input: Pieces<'_>, answer: &[u8]) {
    match normalise_from(told.alloc(), &mut Device::new(input)) {
        Ok(bytes) => told.put_text(if bytes.as_slice() == answer {
            "the answer"
        } else {
            "another answer"
        }),
        Err(fault) => tell_fault(told, &fault),
    }
}

/// The same of the answer of these bytes.
fn tell_asked_answer(told: &mut Sheet, input: &[u8], asked: &str) {
    let answer = answer_of(told, Job::Binary, input);
    let pieces = pieces_of(told, input, asked);
    tell_answered(told, pieces, answer.as_slice());
}

/// Tells what a comparison of two readers tells.
fn tell_compared(told: &mut Sheet, a: Pieces<'_>, b: Pieces<'_>) {
    match compare_from(told.alloc(), &mut Device::new(a), &mut Device::new(b)) {
        Ok(comparison) => told.put_debug(&comparison),
        Err((side, fault)) => {
            told.put_debug(&side);
            told.put_text(": ");
            tell_fault(told, &fault);
        }
    }
}

/// The same of the readers and the other input that are asked for.
fn tell_asked_comparison(told: &mut Sheet, input: &[u8], asked: &str) {
    let (first, rest) = parts_of(told, asked, " ", "reading a reader");
    let (second, other) = parts_of(told, rest, " ", "reading a reader");
    let other = input_of(told, other);
    let a = pieces_of(told, input, first);
    let b = pieces_of(told, other.as_slice(), second);
    tell_compared(told, a, b);
}

/// Tells why nothing was decoded, and whether at most 4,096 bytes were read behind the place of a fault.
fn tell_decode_fault(told: &mut Sheet, fault: &BinFault, count: u64) {
    match fault {
        BinFault::Bad { at, why } => {
            let is_near = count <= at.saturating_add(4097);
            told.put_text(if is_near { "near" } else { "far from" });
            told.put_number(" byte ", *at);
            told.put_text(" ");
            told.put_debug(why);
        }
        BinFault::Read { at } => told.put_number("read ", *at),
        BinFault::Memory => told.put_text("memory"),
    }
}

/// Tells what was decoded while so many bytes were read.
fn tell_module(told: &mut Sheet, decoded: Result<Module, BinFault>, count: u64) {
    match decoded {
        Ok(module) => {
            told.put_number("", module.types.len() as u64);
            told.put_text(" types");
        }
        Err(fault) => tell_decode_fault(told, &fault, count),
    }
}

/// Tells how a device was left: where it failed, and whether it ended, and was asked again behind that.
fn tell_left(told: &mut Sheet, device: &Device<Pieces<'_>>) {
    if let Some(at) = device.failed_at() {
        told.put_number(", failed at ", at);
    }
    if device.ended() {
        told.put_text(", ended");
    }
    if device.asked_again() {
        told.put_text(", asked again");
    }
}

/// Tells what was decoded, and how the device was left.
fn tell_decoding(told: &mut Sheet, decoded: Result<Module, BinFault>, device: &Device<Pieces<'_>>) {
    tell_module(told, decoded, device.count());
    tell_left(told, device);
}

/// Tells what is decoded of a reader.
fn tell_decoded(told: &mut Sheet, input: Pieces<'_>) {
    let mut device = Device::new(input);
    let decoded = decode_from(told.alloc(), &[], &mut device);
    tell_decoding(told, decoded, &device);
}

/// The same where its first read came before.
fn tell_fronted(told: &mut Sheet, input: Pieces<'_>) {
    let mut device = Device::new(input);
    let mut front = [0u8; 16];
    let Ok(count) = device.read(&mut front) else {
        told.note("the first read failed");
        return;
    };
    let decoded = decode_from(told.alloc(), &front[..count], &mut device);
    tell_decoding(told, decoded, &device);
}

/// Tells of the input what is asked.
pub fn tell_asked(told: &mut Sheet, input: &[u8], word: &str, asked: &str) {
    match word {
        "run" => tell_asked_run(told, input, asked),
        "compared" => tell_asked_comparison(told, input, asked),
        "answered" => tell_asked_answer(told, input, asked),
        _ => {
            let pieces = pieces_of(told, input, asked);
            match word {
                "accepted" => tell_accepted(told, pieces),
                "decoded" => tell_decoded(told, pieces),
                _ => tell_fronted(told, pieces),
            }
        }
    }
}
