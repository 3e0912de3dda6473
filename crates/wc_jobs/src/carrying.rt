//! Inputs that are handed to the public calls, and what these answered.

ghost use Rattle.std.specs.Prelude.{◌≡◌};

use crate::devices::{Digest, Source};
use std::alloc::Global;
use wc_canon::{Comparison, Job, accept, compare, is_canonical, normalise, to_text};
use wc_cli::{Ask, Line, Opens, act_each};
use wc_device::Device;

/// Two inputs by their names.
#[derive(Drop)]
struct Shelf<'a> {
    a: &'a [u8],
    b: &'a [u8],
}

impl<'a> Opens<Source<'a>> for Shelf<'a> {
    fn open(&mut self, path: &str) -> Option<Device<Source<'a>>> {
        match path {
            "a" => Some(Device::new(Source::new(self.a))),
            "b" => Some(Device::new(Source::new(self.b))),
            _ => None,
        }
    }

    fn close(&mut self, input: Option<Device<Source<'a>>>)
        ensures { self.new ≡ self.old }
    {
        drop(input);
    }
}

/// What was answered so far.
#[derive(Drop)]
pub struct Answers {
    pub inputs: u64,
    pub bytes: u64,
    /// How many bytes were written.
    pub taken: u64,
    pub written: Digest,
    pub told: Digest,
}

impl Answers {
    pub fn new() -> Answers {
        Answers {
            inputs: 0,
            bytes: 0,
            taken: 0,
            written: Digest::new(),
            told: Digest::new(),
        }
    }

    /// Counts an input.
    fn count(&mut self, input: &[u8]) {
        self.inputs = self.inputs.wrapping_add(1);
        self.bytes = self.bytes.wrapping_add(input.len() as u64);
    }

    /// Carries a line of a command line out.
    fn carry_out(&mut self, alloc: Global, line: Line<'static>, a: &[u8], b: &[u8]) {
        let mut shelf = Shelf { a, b };
        let mut w = Device::new(Digest::new());
        let mut e = Device::new(Digest::new());
        let status = act_each(alloc, &[line], &mut shelf, &mut w, &mut e);
        self.note(w.inner(), e.inner(), status);
    }

    /// Notes what was written and told, and the status.
    fn note(&mut self, written: &Digest, told: &Digest, status: u8) {
        self.taken = self.taken.wrapping_add(written.taken());
        self.written.add(&written.value().to_le_bytes());
        self.told.add(&told.value().to_le_bytes());
        self.told.add(&[status]);
    }

    /// Notes bytes that were answered in memory.
    fn note_bytes(&mut self, bytes: &[u8]) {
        self.taken = self.taken.wrapping_add(bytes.len() as u64);
        self.written.add(bytes);
    }

    /// Writes what a job makes of an input.
    pub fn make(&mut self, alloc: Global, job: Job, input: &[u8]) {
        self.count(input);
        let line = Line::Make {
            job,
            input: "a",
            output: None,
        };
        self.carry_out(alloc, line, input, input);
    }

    /// Tells what is asked of an input.
    pub fn tell(&mut self, alloc: Global, ask: Ask, input: &[u8]) {
        self.count(input);
        let line = Line::Tell {
            ask,
            input: "a",
            named: true,
        };
        self.carry_out(alloc, line, input, input);
    }

    /// Tells whether two inputs are the same module.
    pub fn compare(&mut self, alloc: Global, a: &[u8], b: &[u8]) {
        self.count(a);
        self.count(b);
        self.carry_out(alloc, Line::Compare { a: "a", b: "b" }, a, b);
    }

    /// Normalises an input in memory.
    pub fn normalise_in_memory(&mut self, alloc: Global, input: &[u8]) {
        self.count(input);
        match normalise(alloc, input) {
            Ok(bytes) => self.note_bytes(&bytes),
            Err(_) => self.told.add(b"refused"),
        }
    }

    /// Prints an input in memory.
    pub fn print_in_memory(&mut self, alloc: Global, input: &[u8]) {
        self.count(input);
        match to_text(alloc, input) {
            Ok(text) => self.note_bytes(text.as_bytes()),
            Err(_) => self.told.add(b"refused"),
        }
    }

    /// Tells whether an input in memory is accepted.
    pub fn accept_in_memory(&mut self, alloc: Global, input: &[u8]) {
        self.count(input);
        let answer = accept(alloc, input).is_ok();
        self.told.add(&[u8::from(answer)]);
    }

    /// Tells whether an input in memory is its own answer.
    pub fn judge_in_memory(&mut self, alloc: Global, input: &[u8]) {
        self.count(input);
        let answer = match is_canonical(alloc, input) {
            Ok(true) => 1,
            Ok(false) => 2,
            Err(_) => 3,
        };
        self.told.add(&[answer]);
    }

    /// Compares two inputs in memory.
    pub fn compare_in_memory(&mut self, alloc: Global, a: &[u8], b: &[u8]) {
        self.count(a);
        self.count(b);
        let answer = match compare(alloc, a, b) {
            Ok(Comparison::Same) => 1,
            Ok(Comparison::Different) => 2,
            Err(_) => 3,
        };
        self.told.add(&[answer]);
    }
}
