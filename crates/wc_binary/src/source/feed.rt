//! The bytes of a reader, by a buffer.

ghost use Rattle.std.specs.Prelude.{◌≤◌, ◌-◌};
ghost use Rattle.wc_device.specs.Standard.Device.{read_count, buffer_size};

use crate::byte_range::are_bytes;
use crate::fault::BinFault;
use crate::source::Source;
use std::alloc::AllocError;
use std::io::Read;
use wc_device::{BUFFER_SIZE, Device};

/// A reader and its bytes that were read and not yet taken, which lie in the buffer from `at` up to `end`. The buffer
/// is filled by one read, and only once all its bytes were taken: so a fault in bytes that were read comes before the
/// failure of a later read.
#[derive(Drop)]
pub struct Feed<'a, R> {
    pub device: &'a mut Device<R>,
    pub buffer: [u8; BUFFER_SIZE],
    pub at: usize,
    pub end: usize,
    pub ghost within: { end ≤ buffer_size },
    pub ghost ordered: { at ≤ end },
    pub ghost counted: { end - at ≤ read_count device.now },
}

impl<R: Read> Source for Feed<'_, R> {
    ghost use Rattle.wc_binary.specs.Reading.Feed.{feed_input};

    ghost input = { feed_input R.remaining };

    ghost at_hand = { λ f. f.end - f.at };

    fn place(&self) -> u64 {
        self.device.count() - (self.end - self.at) as u64
    }

    #[inline(always)]
    fn next(&mut self) -> Result<Option<u8>, BinFault> {
        if self.at == self.end {
            match self.device.read(&mut self.buffer) {
                Ok(0) => return Ok(None),
                Ok(n) => {
                    self.at = 0;
                    self.end = n;
                }
                Err(_) => return Err(BinFault::Read {
                    at: self.device.count(),
                }),
            }
        }
        let b = self.buffer[self.at];
        self.at += 1;
        Ok(Some(b))
    }

    fn take(&mut self, most: usize, out: &mut Vec<u8>) -> Result<(), AllocError> {
        let count = most.min(self.end - self.at);
        let taken = &self.buffer[self.at..self.at + count];
        are_bytes(taken);
        out.extend_from_slice(taken)?;
        self.at += count;
        Ok(())
    }

    fn ahead(&self, count: usize) -> Option<&[u8]> {
        let left = &self.buffer[self.at..self.end];
        let bytes = left.get(..count)?;
        are_bytes(bytes);
        Some(bytes)
    }

    fn front(&self, most: usize) -> &[u8] {
        let count = most.min(self.end - self.at);
        let bytes = &self.buffer[self.at..self.at + count];
        are_bytes(bytes);
        bytes
    }

    fn pass(&mut self, most: u64) -> u64 {
        let count = most.min((self.end - self.at) as u64);
        are_bytes(&self.buffer[self.at..self.at + count as usize]);
        self.at += count as usize;
        count
    }
}
