//! Readers and writers in memory.

use std::io::{self, Read, Write};

/// Gives its bytes, as many a call as are asked for.
#[derive(Drop)]
pub struct Source<'a> {
    bytes: &'a [u8],
}

impl<'a> Source<'a> {
    pub fn new(bytes: &'a [u8]) -> Source<'a> {
        Source { bytes }
    }
}

impl<'a> Read for Source<'a> {
    fn read(&mut self, buf: &mut [u8]) -> io::Result<usize> {
        let most = buf.len().min(self.bytes.len());
        let (front, rest) = self.bytes.split_at(most);
        buf[..most].copy_from_slice(front);
        self.bytes = rest;
        Ok(most)
    }
}

/// Takes bytes and keeps a digest of them, which doesn't depend on the pieces that they come in.
#[derive(Drop)]
pub struct Digest {
    lanes: [u64; 4],
    waiting: [u8; 32],
    filled: usize,
    taken: u64,
}

/// A lane behind eight more bytes.
fn mixed(lane: u64, bytes: [u8; 8]) -> u64 {
    (lane ^ u64::from_le_bytes(bytes)).wrapping_mul(0x9e37_79b9_7f4a_7c15) ^ (lane >> 29)
}

/// Lanes behind 32 more bytes.
fn behind(lanes: [u64; 4], b: &[u8; 32]) -> [u64; 4] {
    [
        mixed(lanes[0], [b[0], b[1], b[2], b[3], b[4], b[5], b[6], b[7]]),
        mixed(
            lanes[1],
            [b[8], b[9], b[10], b[11], b[12], b[13], b[14], b[15]],
        ),
        mixed(
            lanes[2],
            [b[16], b[17], b[18], b[19], b[20], b[21], b[22], b[23]],
        ),
        mixed(
            lanes[3],
            [b[24], b[25], b[26], b[27], b[28], b[29], b[30], b[31]],
        ),
    ]
}

impl Digest {
    pub fn new() -> Digest {
        Digest {
            lanes: [1, 2, 3, 4],
            waiting: [0; 32],
            filled: 0,
            taken: 0,
        }
    }

    /// Takes one byte behind the others.
    fn take(&mut self, byte: u8) {
        if let Some(place) = self.waiting.get_mut(self.filled) {
            *place = byte;
        }
        self.filled = self.filled.wrapping_add(1);
        if self.filled >= 32 {
            self.lanes = behind(self.lanes, &self.waiting);
            self.filled = 0;
        }
    }

    /// Takes bytes behind the others.
    pub fn add(&mut self, bytes: &[u8]) {
        self.taken = self.taken.wrapping_add(bytes.len() as u64);
        let ahead = (32usize.saturating_sub(self.filled) % 32).min(bytes.len());
        let (front, rest) = bytes.split_at(ahead);
        for byte in front {
            self.take(*byte);
        }
        let (chunks, tail) = rest.as_chunks::<32>();
        for chunk in chunks {
            self.lanes = behind(self.lanes, chunk);
        }
        for byte in tail {
            self.take(*byte);
        }
    }

    /// How many bytes were taken.
    pub fn taken(&self) -> u64 {
        self.taken
    }

    /// The digest so far.
    pub fn value(&self) -> u64 {
        let mut whole = self.taken;
        for lane in self.lanes {
            whole = mixed(whole, lane.to_le_bytes());
        }
        for byte in self.waiting.iter().take(self.filled) {
            whole = mixed(whole, [*byte, 0, 0, 0, 0, 0, 0, 0]);
        }
        whole
    }
}

impl Write for Digest {
    fn write(&mut self, buf: &[u8]) -> io::Result<usize> {
        self.add(buf);
        Ok(buf.len())
    }

    fn flush(&mut self) -> io::Result<()> {
        Ok(())
    }
}
