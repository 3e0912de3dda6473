//! Bytes that are put one behind the other.

use std::alloc::{AllocError, Global};

/// Bytes that were put. Where memory is refused, what is put from then on is dropped, and `check` tells it once: so who
/// puts has no way out at each byte.
#[derive(Drop)]
pub struct Sheet {
    bytes: Vec<u8>,
    is_refused: bool,
}

impl Sheet {
    /// An empty sheet. It takes no memory.
    pub fn new(alloc: Global) -> Sheet {
        Sheet {
            bytes: Vec::new(alloc),
            is_refused: false,
        }
    }

    /// An empty sheet with room for so many bytes.
    pub fn with_capacity(alloc: Global, capacity: usize) -> Sheet {
        match Vec::with_capacity(alloc, capacity) {
            Ok(bytes) => Sheet {
                bytes,
                is_refused: false,
            },
            Err(_) => Sheet {
                bytes: Vec::new(alloc),
                is_refused: true,
            },
        }
    }

    /// Notes that memory was refused.
    pub fn refuse(&mut self) {
        self.is_refused = true;
    }

    /// Puts bytes.
    pub fn put(&mut self, bytes: &[u8]) {
        self.is_refused = self.is_refused || self.bytes.extend_from_slice(bytes).is_err();
    }

    /// Puts one byte.
    pub fn push(&mut self, byte: u8) {
        self.is_refused = self.is_refused || self.bytes.push(byte).is_err();
    }

    /// Puts what another sheet has.
    pub fn append(&mut self, other: &Sheet) {
        self.is_refused = self.is_refused || other.is_refused;
        self.put(&other.bytes);
    }

    /// An error where memory was refused since the sheet was empty.
    pub fn check(&self) -> Result<(), AllocError> {
        if self.is_refused {
            return Err(AllocError);
        }
        Ok(())
    }

    /// What was put, as far as there was memory.
    pub fn as_slice(&self) -> &[u8] {
        self.bytes.as_slice()
    }

    /// The last byte, where there is one.
    pub fn last_mut(&mut self) -> Option<&mut u8> {
        self.bytes.last_mut()
    }

    /// How many bytes it has.
    pub fn len(&self) -> usize {
        self.bytes.len()
    }

    /// Cuts it to so many bytes.
    pub fn truncate(&mut self, length: usize) {
        self.bytes.truncate(length);
    }

    /// Empties it; that memory was refused is forgotten.
    pub fn clear(&mut self) {
        self.bytes.clear();
        self.is_refused = false;
    }
}
