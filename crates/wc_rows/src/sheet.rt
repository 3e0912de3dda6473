//! Bytes that are put one behind the other: an input, an answer, or what is told of one.

use hex::encode;
use percent_encoding::percent_decode;
use std::alloc::Global;
use std::fmt::{Debug, Display};
use std::str;

/// Bytes that were put, and the first reason why they aren't those that a row asks for, as where memory was refused. So
/// who puts has no way out of its own.
#[derive(Drop)]
pub struct Sheet {
    alloc: Global,
    bytes: Vec<u8>,
    fault: Option<&'static str>,
}

impl Sheet {
    /// An empty sheet. It takes no memory.
    pub fn new(alloc: Global) -> Sheet {
        Sheet {
            alloc,
            bytes: Vec::new(alloc),
            fault: None,
        }
    }

    /// What it takes memory from.
    pub fn alloc(&self) -> Global {
        self.alloc
    }

    /// Notes a reason; the first one is kept.
    pub fn note(&mut self, fault: &'static str) {
        self.fault = Some(self.fault.unwrap_or(fault));
    }

    /// Notes the reason of another sheet, if it has one.
    pub fn note_of(&mut self, other: &Sheet) {
        self.fault = self.fault.or(other.fault);
    }

    /// Notes that memory was refused.
    pub fn refuse(&mut self) {
        self.note("out of memory");
    }

    /// Puts bytes.
    pub fn put(&mut self, bytes: &[u8]) {
        if self.bytes.extend_from_slice(bytes).is_err() {
            self.refuse();
        }
    }

    /// Puts a text.
    pub fn put_text(&mut self, text: &str) {
        self.put(text.as_bytes());
    }

    /// Puts what was displayed, if there was memory for it.
    fn put_made(&mut self, made: Option<String>) {
        match made {
            Some(text) => self.put(text.as_bytes()),
            None => self.refuse(),
        }
    }

    /// Puts a text and a number.
    pub fn put_number(&mut self, text: &str, number: u64) {
        self.put_text(text);
        self.put_made(format!(in self.alloc; "{number}").ok());
    }

    /// Puts what a value displays.
    pub fn put_shown<T: Display>(&mut self, value: &T) {
        self.put_made(format!(in self.alloc; "{value}").ok());
    }

    /// Puts a value as it is written in a program.
    pub fn put_debug<T: Debug>(&mut self, value: &T) {
        self.put_made(format!(in self.alloc; "{value:?}").ok());
    }

    /// Puts bytes as hexadecimal digits.
    pub fn put_digits(&mut self, bytes: &[u8]) {
        self.put_made(encode(self.alloc, bytes).ok());
    }

    /// Puts a text in which `%0a` is the byte of these digits.
    pub fn put_decoded(&mut self, text: &str) {
        if percent_decode(text.as_bytes())
            .append_to(&mut self.bytes)
            .is_err()
        {
            self.refuse();
        }
    }

    /// Why the bytes aren't those that a row asks for, if they aren't.
    pub fn fault(&self) -> Option<&'static str> {
        self.fault
    }

    /// What was put.
    pub fn as_slice(&self) -> &[u8] {
        self.bytes.as_slice()
    }

    /// The text that was put, and nothing where it is none.
    pub fn as_text(&self) -> &str {
        str::from_utf8(&self.bytes).unwrap_or("")
    }

    /// How many bytes were put.
    pub fn len(&self) -> usize {
        self.bytes.len()
    }

    /// Whether nothing was put.
    pub fn is_empty(&self) -> bool {
        self.bytes.is_empty()
    }

    /// Whether this text was put.
    pub fn is(&self, text: &str) -> bool {
        self.as_slice() == text.as_bytes()
    }
}
