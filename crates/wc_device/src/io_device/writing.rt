//! Writing to a device.
ghost use Rattle.std.specs.Prelude.{◌≡◌, ◌<◌, ◌≤◌, ◌+◌, ◌-◌, ◌||◌, ◌&&◌, nat_lt, length, take};
ghost use Rattle.std.specs.Prelude.{IfOk, IfErr, OnOk, OnErr, true, false};
ghost use Rattle.std.specs.Io.{WritesAtMost};
ghost use Rattle.std.specs.Io.KnownBytes.{Appends, WriteAppends, Keeps};
ghost use Rattle.wc_device.specs.Standard.Device.{device_inner, failed_at, first_failure, has_failed, read_count};
ghost use Rattle.wc_device.specs.Standard.Device.{countable, was_asked_again, has_ended, flush_count, one_more};
ghost use Rattle.wc_device.specs.Standard.Device.{is_unflushed, has_lost, FlushedOnce, FlushedBehindAll, LosesBehind};
ghost use Rattle.wc_device.specs.Standard.WriteCalls.{WritesAll, WritesBehind, SendsAll};

use super::Device;
use crate::calls::Writer;
use std::io;

impl<W: Writer> Device<W> {
    /// Notes that the writer is asked, where it failed before.
    fn ask(&mut self)
        ensures inner { device_inner self.new ≡ device_inner self.old }
        ensures again { was_asked_again self.new ≡ (was_asked_again self.old || has_failed self.old) }
        ensures place { failed_at self.new ≡ failed_at self.old }
        ensures count { read_count self.new ≡ read_count self.old }
        ensures ended { has_ended self.new ≡ has_ended self.old }
        ensures flushes { flush_count self.new ≡ flush_count self.old }
        ensures unflushed { is_unflushed self.new ≡ is_unflushed self.old }
        ensures lost { has_lost self.new ≡ has_lost self.old }
    {
        self.asked_again = self.asked_again || self.failed_at.is_some();
    }

    /// Writes as the writer does, and answers how many bytes at the front of `buf` it took.
    ///
    /// The writer is asked once. `Ok(0)` for some bytes is a failure that is kept, since a loop over such a writer
    /// would not end. For no bytes it is none.
    ///
    /// # Errors
    /// The writer's own error, of any kind. It took nothing then, and the failure is kept.
    pub fn write(&mut self, buf: &[u8]) -> io::Result<usize>
        ensures call { W.writes (device_inner self.old) buf.now result (device_inner self.new) }
        ensures bound { WritesAtMost result buf.now }
        ensures bytes { WriteAppends (W.contents (device_inner self.old)) (W.contents (device_inner self.new))
            result buf.now }
        ensures count { read_count self.new ≡ read_count self.old }
        ensures ended { has_ended self.new ≡ has_ended self.old }
        ensures again { was_asked_again self.new ≡ (was_asked_again self.old || has_failed self.old) }
        ensures flushes { flush_count self.new ≡ flush_count self.old }
        ensures unflushed { is_unflushed self.new ≡ true }
        ensures lost { has_lost self.new ≡ has_lost self.old }

        ensures fails { OnErr result (has_failed self.new ≡ true) }
        ensures takes_none { IfOk result (λ n. n ≡ 0 → 0 < length buf.now → has_failed self.new ≡ true) }
        ensures takes_some { IfOk result (λ n. 0 < n → has_failed self.new ≡ has_failed self.old) }
        ensures empty { length buf.now ≡ 0 → OnOk result (has_failed self.new ≡ has_failed self.old) }
        ensures place { has_failed self.new ≡ true
            → failed_at self.new ≡ first_failure (failed_at self.old) (read_count self.old) }
    {
        self.ask();
        self.unflushed = true;
        let outcome = self.inner.write_once(buf);
        match &outcome {
            Ok(0) if !buf.is_empty() => self.fail(),
            Ok(_) => {}
            Err(_) => self.fail(),
        }
        outcome
    }

    /// Flushes the writer once. Its bytes stay as they are.
    ///
    /// # Errors
    /// The writer's own error, of any kind. The failure is kept.
    pub fn flush(&mut self) -> io::Result<()>
        ensures call { W.flushes (device_inner self.old) result (device_inner self.new) }
        ensures bytes { Keeps (W.contents (device_inner self.old)) (W.contents (device_inner self.new)) }
        ensures count { read_count self.new ≡ read_count self.old }
        ensures ended { has_ended self.new ≡ has_ended self.old }
        ensures again { was_asked_again self.new ≡ (was_asked_again self.old || has_failed self.old) }
        ensures flushed { FlushedOnce self.old self.new }
        ensures fails { OnErr result (has_failed self.new ≡ true) }
        ensures goes_on { OnOk result (has_failed self.new ≡ has_failed self.old) }
        ensures place { has_failed self.new ≡ true
            → failed_at self.new ≡ first_failure (failed_at self.old) (read_count self.old) }
    {
        self.ask();
        self.flush_count = self.flush_count.wrapping_add(1);
        self.unflushed = false;
        let outcome = self.inner.flush_once();
        if outcome.is_err() {
            self.fail();
        }
        outcome
    }

    /// Writes all the bytes, and doesn't flush. A write that takes only some of them is followed by one of the rest.
    ///
    /// # Errors
    /// How many bytes at the front went out before a write failed. The failure is kept, and nothing is tried again.
    pub fn write_all(&mut self, bytes: &[u8]) -> Result<(), u64>
        ensures calls { WritesAll W.writes (device_inner self.old) bytes.now result (device_inner self.new) }
        ensures bytes { OnOk result
            (Appends (W.contents (device_inner self.old)) (W.contents (device_inner self.new)) bytes.now) }
        ensures front { IfErr result (λ n. (n ≤ length bytes.now)
            × Appends (W.contents (device_inner self.old)) (W.contents (device_inner self.new)) (take n bytes.now)) }
        ensures short { IfErr result (λ n. n < length bytes.now) }
        ensures count { read_count self.new ≡ read_count self.old }
        ensures ended { has_ended self.new ≡ has_ended self.old }
        // Without a byte the writer isn't asked.
        ensures again { was_asked_again self.new
            ≡ (was_asked_again self.old || (has_failed self.old && nat_lt 0 (length bytes.now))) }
        ensures flushes { flush_count self.new ≡ flush_count self.old }
        ensures unflushed { is_unflushed self.new ≡ (is_unflushed self.old || nat_lt 0 (length bytes.now)) }
        ensures lost { has_lost self.new ≡ has_lost self.old }

        ensures fails { OnErr result (has_failed self.new ≡ true) }
        ensures goes_on { OnOk result (has_failed self.new ≡ has_failed self.old) }
        ensures place { has_failed self.new ≡ true
            → failed_at self.new ≡ first_failure (failed_at self.old) (read_count self.old) }
    {
        let mut sent = 0;
        while sent < bytes.len() {
            match self.write(&bytes[sent..]) {
                Ok(0) | Err(_) => return Err(sent as u64),
                Ok(n) => sent += n,
            }
        }
        Ok(())
    }

    /// Writes all the bytes behind so many that went out before, and answers how many these are then. It doesn't flush.
    ///
    /// # Errors
    /// How many went out, with those before, until a write failed. No more than 2^64 - 1 are written: where the bytes
    /// are more, the rest of them is lost. The failure is kept, and nothing is tried again.
    pub fn write_behind(&mut self, before: u64, bytes: &[u8]) -> Result<u64, u64>
        ensures calls { WritesBehind W.writes (device_inner self.old) before bytes.now result (device_inner self.new) }
        ensures total { IfOk result (λ n. n ≡ before + length bytes.now) }
        ensures bytes { OnOk result
            (Appends (W.contents (device_inner self.old)) (W.contents (device_inner self.new)) bytes.now) }
        ensures front { IfErr result (λ n. (before ≤ n) × (n ≤ before + length bytes.now)
            × Appends (W.contents (device_inner self.old)) (W.contents (device_inner self.new))
            (take (n - before) bytes.now)) }
        ensures short { IfErr result (λ n. n < before + length bytes.now) }
        ensures count { read_count self.new ≡ read_count self.old }
        ensures ended { has_ended self.new ≡ has_ended self.old }
        // Without a byte that can be counted the writer isn't asked.
        ensures again { was_asked_again self.new
            ≡ (was_asked_again self.old || (has_failed self.old && nat_lt 0 (countable (length bytes.now) before))) }
        ensures flushes { flush_count self.new ≡ flush_count self.old }
        ensures unflushed { is_unflushed self.new
            ≡ (is_unflushed self.old || nat_lt 0 (countable (length bytes.now) before)) }
        // Bytes are lost just where the count is full.
        ensures lost { OnOk result (has_lost self.new ≡ has_lost self.old) }
        ensures lost_behind { IfErr result (λ n. LosesBehind n self.old self.new) }
        ensures lost_some { IfErr result (λ n. n ≡ u64.MAX → has_lost self.new ≡ true) }

        ensures fails { OnErr result (has_failed self.new ≡ true) }
        ensures goes_on { OnOk result (has_failed self.new ≡ has_failed self.old) }
        ensures place { has_failed self.new ≡ true
            → failed_at self.new ≡ first_failure (failed_at self.old) (read_count self.old) }
    {
        let most = (bytes.len() as u64).min(u64::MAX - before) as usize;
        if let Err(written) = self.write_all(&bytes[..most]) {
            return Err(before + written);
        }
        if most < bytes.len() {
            self.fail();
            self.lost = true;
            return Err(u64::MAX);
        }
        Ok(before + most as u64)
    }

    /// Writes all the bytes, and then flushes once.
    ///
    /// # Errors
    /// How many bytes at the front went out before a write failed, or all of them where the flush did. The failure is
    /// kept, and nothing is tried again.
    pub fn send(&mut self, bytes: &[u8]) -> Result<(), u64>
        ensures calls { SendsAll W.writes W.flushes (device_inner self.old) bytes.now result (device_inner self.new) }
        ensures bytes { OnOk result
            (Appends (W.contents (device_inner self.old)) (W.contents (device_inner self.new)) bytes.now) }
        ensures front { IfErr result (λ n. (n ≤ length bytes.now)
            × Appends (W.contents (device_inner self.old)) (W.contents (device_inner self.new)) (take n bytes.now)) }
        ensures count { read_count self.new ≡ read_count self.old }
        ensures ended { has_ended self.new ≡ has_ended self.old }
        ensures again { was_asked_again self.new ≡ (was_asked_again self.old || has_failed self.old) }
        ensures flushed { OnOk result (FlushedOnce self.old self.new) }
        ensures flushed_behind_all { IfErr result (λ n. FlushedBehindAll n (length bytes.now) self.old self.new) }

        ensures fails { OnErr result (has_failed self.new ≡ true) }
        ensures goes_on { OnOk result (has_failed self.new ≡ has_failed self.old) }
        ensures place { has_failed self.new ≡ true
            → failed_at self.new ≡ first_failure (failed_at self.old) (read_count self.old) }
    {
        self.write_all(bytes)?;
        match self.flush() {
            Ok(()) => Ok(()),
            Err(_) => Err(bytes.len() as u64),
        }
    }
}
