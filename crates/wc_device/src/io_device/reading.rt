//! Reading from a device.
ghost use Rattle.std.specs.Prelude.{◌≡◌, ◌+◌, ◌<◌, ◌||◌, length, take, drop, IsErr, IfOk, IfErr, OnOk, OnErr, true};
ghost use Rattle.std.specs.Io.{ReadsAtMost};
ghost use Rattle.std.specs.Io.KnownBytes.{ReadConsumes};
ghost use Rattle.std.specs.IoError.{error_kind};
ghost use Rattle.wc_device.specs.Standard.Device.{device_inner, failed_at, first_failure, has_failed, read_count};
ghost use Rattle.wc_device.specs.Standard.Device.{countable, was_asked_again, has_ended, flush_count, is_unflushed};
ghost use Rattle.wc_device.specs.Standard.Device.{has_lost};

use super::Device;
use crate::calls::Reader;
use std::io;
use std::io::{Error, ErrorKind};

impl<R: Reader> Device<R> {
    /// Reads as the reader does, and answers how many bytes stand at the front of `buf` now.
    ///
    /// The reader is asked once, and offered no more room than keeps the count below 2^64. `Ok(0)` at a buffer that
    /// isn't empty is the end of the reader's bytes, and no failure.
    ///
    /// # Errors
    /// The reader's own error, of any kind. Where the count has reached 2^64 - 1 and the buffer isn't
    /// empty, an error of kind `Other`, and the reader isn't asked. No byte is counted, and the first failure is kept.
    // Once for a buffer of bytes, so it doesn't burden what goes over these one by one.
    #[inline(never)]
    pub fn read(&mut self, buf: &mut [u8]) -> io::Result<usize>
        ensures bound { ReadsAtMost result buf.new }
        ensures bytes { ReadConsumes (R.remaining (device_inner self.old)) (R.remaining (device_inner self.new))
            result buf.new }

        // One call of the reader, with the front of the buffer; none where the count is full and there is room.
        ensures call { (read_count self.old ≡ u64.MAX → length buf.old ≡ 0)
            → R.reads (device_inner self.old) (take (countable (length buf.old) (read_count self.old)) buf.old) result
            (take (countable (length buf.old) (read_count self.old)) buf.new) (device_inner self.new) }
        ensures rest { drop (countable (length buf.old) (read_count self.old)) buf.new
            ≡ drop (countable (length buf.old) (read_count self.old)) buf.old }
        ensures full { read_count self.old ≡ u64.MAX → 0 < length buf.old → IsErr result }
        ensures full_kind { read_count self.old ≡ u64.MAX → 0 < length buf.old
            → IfErr result (λ e. error_kind e ≡ ErrorKind.Other) }
        ensures no_call { read_count self.old ≡ u64.MAX → 0 < length buf.old
            → device_inner self.new ≡ device_inner self.old }

        ensures counted { IfOk result (λ n. read_count self.new ≡ read_count self.old + n) }
        ensures uncounted { OnErr result (read_count self.new ≡ read_count self.old) }

        ensures fails { OnErr result (has_failed self.new ≡ true) }
        ensures goes_on { OnOk result (has_failed self.new ≡ has_failed self.old) }
        ensures place { OnErr result (failed_at self.new ≡ first_failure (failed_at self.old) (read_count self.old)) }
        ensures no_place { OnOk result (failed_at self.new ≡ failed_at self.old) }

        ensures ends { IfOk result (λ n. n ≡ 0 → 0 < length buf.old → has_ended self.new ≡ true) }
        ensures has_more { IfOk result (λ n. 0 < n → has_ended self.new ≡ has_ended self.old) }
        ensures no_room { length buf.old ≡ 0 → has_ended self.new ≡ has_ended self.old }
        ensures no_end { OnErr result (has_ended self.new ≡ has_ended self.old) }
        ensures again { was_asked_again self.new
            ≡ (was_asked_again self.old || (has_failed self.old || has_ended self.old)) }

        ensures flushes { flush_count self.new ≡ flush_count self.old }
        ensures unflushed { is_unflushed self.new ≡ is_unflushed self.old }
        ensures lost { has_lost self.new ≡ has_lost self.old }
    {
        self.asked_again = self.asked_again || self.failed_at.is_some() || self.ended;
        let room = u64::MAX - self.count;
        let most = (buf.len() as u64).min(room) as usize;
        if most == 0 && !buf.is_empty() {
            self.fail();
            return Err(Error::from(ErrorKind::Other));
        }
        let outcome = self.inner.read_once(&mut buf[..most]);
        match &outcome {
            Ok(0) if most > 0 => self.ended = true,
            Ok(n) => self.count += *n as u64,
            Err(_) => self.fail(),
        }
        outcome
    }
}
