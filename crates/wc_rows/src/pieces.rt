//! Readers and writers that move bytes in pieces, and fail.
//!
//! A row writes one as `5`, where a call moves at most so many bytes, and as `5!3`, where the third call fails. Of a
//! writer `5?` is one whose flush fails.

use crate::sheet::Sheet;
use std::io::{self, Error, ErrorKind, Read, Write};

/// How many bytes a call moves at most, and which call fails, counted from 1: none where that is 0.
#[derive(Clone, Copy)]
pub struct Pace {
    pub piece: usize,
    pub fails_at: u32,
}

/// The number of digits. Where they are none, `asking` notes it.
fn number_of(asking: &mut Sheet, digits: &str) -> u32 {
    match digits.parse::<u32>() {
        Ok(number) => number,
        Err(_) => {
            asking.note("reading a pace");
            0
        }
    }
}

/// The pace of a word. Where it can't be read, `asking` notes it.
pub fn pace_of(asking: &mut Sheet, word: &str) -> Pace {
    let (piece, fails_at) = word.split_once('!').unwrap_or((word, "0"));
    Pace {
        piece: number_of(asking, piece) as usize,
        fails_at: number_of(asking, fails_at),
    }
}

/// Gives its bytes at a pace.
#[derive(Drop)]
pub struct Pieces<'a> {
    bytes: &'a [u8],
    pace: Pace,
    pub calls: u32,
}

impl<'a> Pieces<'a> {
    /// Bytes of which nothing was given.
    pub fn new(bytes: &'a [u8], pace: Pace) -> Pieces<'a> {
        Pieces {
            bytes,
            pace,
            calls: 0,
        }
    }
}

/// A reader of an input at the pace of a word.
pub fn pieces_of<'a>(asking: &mut Sheet, input: &'a [u8], word: &str) -> Pieces<'a> {
    Pieces::new(input, pace_of(asking, word))
}

impl Read for Pieces<'_> {
    fn read(&mut self, buf: &mut [u8]) -> io::Result<usize> {
        self.calls = self.calls.saturating_add(1);
        if self.calls == self.pace.fails_at {
            return Err(Error::from(ErrorKind::Interrupted));
        }
        let most = self.pace.piece.min(buf.len()).min(self.bytes.len());
        let (front, rest) = self.bytes.split_at(most);
        buf[..most].copy_from_slice(front);
        self.bytes = rest;
        Ok(most)
    }
}

/// Takes bytes at a pace.
#[derive(Drop)]
pub struct Taker {
    pub taken: Sheet,
    pace: Pace,
    flush_fails: bool,
    pub calls: u32,
    pub flushes: u32,
}

/// The writer of a word, which took nothing yet.
pub fn taker_of(asking: &mut Sheet, word: &str) -> Taker {
    let (pace, flush_fails) = match word.strip_suffix('?') {
        Some(pace) => (pace, true),
        None => (word, false),
    };
    Taker {
        taken: Sheet::new(asking.alloc()),
        pace: pace_of(asking, pace),
        flush_fails,
        calls: 0,
        flushes: 0,
    }
}

impl Write for Taker {
    fn write(&mut self, buf: &[u8]) -> io::Result<usize> {
        self.calls = self.calls.saturating_add(1);
        if self.calls == self.pace.fails_at {
            return Err(Error::from(ErrorKind::Interrupted));
        }
        let most = self.pace.piece.min(buf.len());
        self.taken.put(&buf[..most]);
        Ok(most)
    }

    fn flush(&mut self) -> io::Result<()> {
        self.flushes = self.flushes.saturating_add(1);
        if self.flush_fails {
            return Err(Error::from(ErrorKind::Interrupted));
        }
        Ok(())
    }
}
