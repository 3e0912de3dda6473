//! What is done for a command line, between readers and writers. `pieces` says how a row writes these.
//!
//! Behind the words of a line a row has the writers of the answer and of faults, and each input that can be opened, by
//! its name, its reader and its bytes: `4096 4096 | in 5!2 module`. What is told is the status, and in quotes what went
//! to the two writers: digits where these are bytes. Behind it may stand some of `calls 1 flushes 1 faults 1 reads 2`:
//! how often the first writer was called and flushed, the other one called, and the readers that were opened asked.

ghost use Rattle.std.specs.Prelude.{◌≡◌};

use crate::input::{input_of, parts_of, text_of};
use crate::lines::words_of;
use crate::pieces::{Pace, Pieces, Taker, pace_of, pieces_of, taker_of};
use crate::sheet::Sheet;
use std::alloc::Global;
use std::str;
use wc_cli::{Line, Opens, act, act_each, lines};
use wc_device::Device;

/// An input that can be opened.
#[derive(Drop)]
struct Stock {
    name: Sheet,
    pace: Pace,
    bytes: Sheet,
}

/// The input of a part of a row.
fn stock_of(told: &mut Sheet, part: &str) -> Stock {
    let (name, rest) = parts_of(told, part, " ", "reading an input");
    let (reader, input) = parts_of(told, rest, " ", "reading an input");
    Stock {
        name: text_of(told, name),
        pace: pace_of(told, reader),
        bytes: input_of(told, input),
    }
}

/// Inputs by their names, and how often those that were given back had been asked.
#[derive(Drop)]
struct Shelf<'a> {
    stocks: &'a [Stock],
    calls: u32,
}

impl<'a> Opens<Pieces<'a>> for Shelf<'a> {
    fn open(&mut self, path: &str) -> Option<Device<Pieces<'a>>> {
        for stock in self.stocks {
            if stock.name.is(path) {
                return Some(Device::new(Pieces::new(stock.bytes.as_slice(), stock.pace)));
            }
        }
        None
    }

    fn close(&mut self, input: Option<Device<Pieces<'a>>>)
        ensures { self.new.stocks ≡ self.old.stocks }
    {
        if let Some(device) = input {
            self.calls = self.calls.saturating_add(device.inner().calls);
        }
    }
}

/// What came of lines.
#[derive(Drop)]
struct Outcome {
    status: u8,
    answer: Taker,
    fault: Taker,
    reads: u32,
}

/// Carries lines out between devices.
fn carried_out(
    alloc: Global,
    lines: &[Line<'_>],
    stocks: &[Stock],
    mut answer: Taker,
    mut fault: Taker,
) -> Outcome {
    let mut shelf = Shelf { stocks, calls: 0 };
    let status = act_each(
        alloc,
        lines,
        &mut shelf,
        &mut Device::new(&mut answer),
        &mut Device::new(&mut fault),
    );
    Outcome {
        status,
        answer,
        fault,
        reads: shelf.calls,
    }
}

/// Carries out what words ask for.
fn outcome_of(
    alloc: Global,
    words: &[&str],
    stocks: &[Stock],
    answer: Taker,
    fault: Taker,
) -> Outcome {
    match lines(alloc, words) {
        Ok(Some(lines)) => carried_out(alloc, lines.as_slice(), stocks, answer, fault),
        _ => carried_out(alloc, &[], stocks, answer, fault),
    }
}

/// Tells what a writer took, as text, or as digits.
fn tell_taken(told: &mut Sheet, taken: &[u8]) {
    match str::from_utf8(taken) {
        Ok(text) if taken.first() != Some(&0) => told.put_text(text),
        _ => told.put_digits(taken),
    }
}

/// Tells a count where the row tells it.
fn tell_count(told: &mut Sheet, wanted: &str, word: &str, count: u32) {
    if wanted.contains(word) {
        told.put_number(word, u64::from(count));
    }
}

/// Tells what came of lines, as far as the row tells it.
fn tell_outcome(told: &mut Sheet, outcome: &Outcome, wanted: &str) {
    told.put_number("", u64::from(outcome.status));
    told.put_text(" \"");
    tell_taken(told, outcome.answer.taken.as_slice());
    told.put_text("\" \"");
    tell_taken(told, outcome.fault.taken.as_slice());
    told.put_text("\"");
    tell_count(told, wanted, " calls ", outcome.answer.calls);
    tell_count(told, wanted, " flushes ", outcome.answer.flushes);
    tell_count(told, wanted, " faults ", outcome.fault.calls);
    tell_count(told, wanted, " reads ", outcome.reads);
}

/// Puts an input behind others.
fn push(told: &mut Sheet, stocks: &mut Vec<Stock>, stock: Stock) {
    if stocks.push(stock).is_err() {
        told.refuse();
    }
}

/// The inputs of parts of a row, behind that of the writers.
fn stocks_of(told: &mut Sheet, parts: &str) -> Vec<Stock> {
    let mut stocks = Vec::new(told.alloc());
    for part in parts.split(" | ").skip(1) {
        let stock = stock_of(told, part);
        push(told, &mut stocks, stock);
    }
    stocks
}

/// What comes of words, with the devices and inputs of the parts of a row.
fn acted(told: &mut Sheet, words: &[&str], parts: &str) -> Outcome {
    let (devices, _) = parts.split_once(" | ").unwrap_or((parts, ""));
    let (writer, faults) = parts_of(told, devices, " ", "reading the writers");
    let stocks = stocks_of(told, parts);
    let answer = taker_of(told, writer);
    let fault = taker_of(told, faults);
    outcome_of(told.alloc(), words, &stocks, answer, fault)
}

/// Tells what is done for a line, as far as the row tells it.
pub fn tell_acted(told: &mut Sheet, text: &str, asked: &str, wanted: &str) {
    let words = words_of(told, text);
    let outcome = acted(told, words.as_slice(), asked);
    tell_outcome(told, &outcome, wanted);
}

/// Tells the statuses where a line is carried out twice over the same devices.
fn tell_twice_of(told: &mut Sheet, lines: &[Line<'_>], input: Pieces<'_>) {
    let alloc = told.alloc();
    let mut a = Some(Device::new(input));
    let mut b: Option<Device<Pieces<'_>>> = None;
    let mut answers = Device::new(Vec::new(alloc));
    let mut faults = Device::new(Vec::new(alloc));
    for line in [lines.first(), lines.first()] {
        if let Some(line) = line {
            let status = act(alloc, line, &mut a, &mut b, &mut answers, &mut faults);
            told.put_number("", u64::from(status));
        }
    }
}

/// The same of what words ask for.
fn tell_twice_for(told: &mut Sheet, words: &[&str], input: Pieces<'_>) {
    match lines(told.alloc(), words) {
        Ok(Some(lines)) => tell_twice_of(told, lines.as_slice(), input),
        _ => told.note("no lines"),
    }
}

/// The same of a check of an input at a pace.
pub fn tell_twice(told: &mut Sheet, input: &[u8], asked: &str) {
    let words = words_of(told, "wcanon check in");
    let pieces = pieces_of(told, input, asked);
    tell_twice_for(told, words.as_slice(), pieces);
}
