//! The bytes of a slice, which never fail.

ghost use Rattle.std.specs.Prelude.{◌≤◌, ◌-◌, length};

use crate::byte_range::are_bytes;
use crate::fault::BinFault;
use crate::source::Source;
use std::alloc::AllocError;

/// A slice, and how much of it was taken.
#[derive(Drop)]
pub struct Bytes<'a> {
    pub bytes: &'a [u8],
    pub at: usize,
    pub ghost within: { at ≤ length bytes.now },
}

impl Source for Bytes<'_> {
    ghost use Rattle.std.specs.Prelude.{drop, true, false, None};

    ghost input = { λ s. record {
      place = s.at;
      known = true;
      left = drop s.at s.bytes.now;
      count = length s.bytes.now;
      failed = None;
      spent = false;
      asked = false;
      lender = 0;
    } };

    ghost at_hand = { λ s. length s.bytes.now - s.at };

    fn place(&self) -> u64 {
        self.at as u64
    }

    #[inline(always)]
    fn next(&mut self) -> Result<Option<u8>, BinFault> {
        match self.bytes.get(self.at) {
            None => Ok(None),
            Some(b) => {
                let b = *b;
                self.at += 1;
                Ok(Some(b))
            }
        }
    }

    fn take(&mut self, most: usize, out: &mut Vec<u8>) -> Result<(), AllocError> {
        let count = most.min(self.bytes.len() - self.at);
        let taken = &self.bytes[self.at..self.at + count];
        are_bytes(taken);
        out.extend_from_slice(taken)?;
        self.at += count;
        Ok(())
    }

    fn ahead(&self, count: usize) -> Option<&[u8]> {
        let left = &self.bytes[self.at..];
        let bytes = left.get(..count)?;
        are_bytes(bytes);
        Some(bytes)
    }

    fn front(&self, most: usize) -> &[u8] {
        let count = most.min(self.bytes.len() - self.at);
        let bytes = &self.bytes[self.at..self.at + count];
        are_bytes(bytes);
        bytes
    }

    fn pass(&mut self, most: u64) -> u64 {
        let count = most.min((self.bytes.len() - self.at) as u64);
        are_bytes(&self.bytes[self.at..self.at + count as usize]);
        self.at += count as usize;
        count
    }
}
