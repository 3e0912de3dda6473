//! A reader or writer with its counts and its failure.
ghost use Rattle.std.specs.Prelude.{◌≡◌, None, false};
ghost use Rattle.wc_device.specs.Standard.Device.{device_inner, failed_at, first_failure, has_failed, read_count};
ghost use Rattle.wc_device.specs.Standard.Device.{was_asked_again, has_ended, flush_count, is_unflushed, has_lost};

mod reading;
mod writing;

/// How many bytes a read is offered where the bytes before it may show that no more are needed: so at most so many are
/// read in vain.
pub const BUFFER_SIZE: usize = 4096;

/// A reader or writer, the number of bytes that were read from it, and whether a call of it failed.
///
/// Each call of a `Device` is one call of what is in it, as `Reader` and `Writer` say, or a row of such calls.
/// A call has failed where it answers an error of any kind, and where a write takes none of some bytes.
/// The first failure is kept, with the number of bytes that were read before it: later calls don't take it back. So is
/// the end of the reader's bytes, and whether it was asked once more after either; how often it was flushed, and
/// whether something was written since; and whether bytes were lost unasked. Nothing here takes memory.
#[derive(Drop)]
pub struct Device<T> {
    inner: T,
    failed_at: Option<u64>,
    ended: bool,
    asked_again: bool,
    count: u64,
    flush_count: u64,
    unflushed: bool,
    lost: bool,
}

impl<T> Device<T> {
    /// A device that hands its calls on to `inner`. Nothing was read or written yet, and nothing failed.
    pub fn new(inner: T) -> Device<T>
        ensures inner { device_inner result ≡ inner }
        ensures failed { has_failed result ≡ false }
        ensures place { failed_at result ≡ None }
        ensures ended { has_ended result ≡ false }
        ensures again { was_asked_again result ≡ false }
        ensures count { read_count result ≡ 0 }
        ensures flushes { flush_count result ≡ 0 }
        ensures unflushed { is_unflushed result ≡ false }
        ensures lost { has_lost result ≡ false }
    {
        Device {
            inner,
            failed_at: None,
            ended: false,
            asked_again: false,
            count: 0,
            flush_count: 0,
            unflushed: false,
            lost: false,
        }
    }

    /// The reader or writer as it stands after the calls so far.
    pub fn inner(&self) -> &T
        ensures { result.now ≡ device_inner self.now }
    {
        &self.inner
    }

    /// Whether a call so far failed.
    pub fn failed(&self) -> bool
        ensures { result ≡ has_failed self.now }
    {
        self.failed_at.is_some()
    }

    /// How many bytes had been read when a call failed for the first time; none where no call failed.
    pub fn failed_at(&self) -> Option<u64>
        ensures { result ≡ failed_at self.now }
    {
        self.failed_at
    }

    /// Whether a read so far was told the end of the bytes.
    pub fn ended(&self) -> bool
        ensures { result ≡ has_ended self.now }
    {
        self.ended
    }

    /// Whether a call was asked for after one had failed, or a read after one had been told the end.
    pub fn asked_again(&self) -> bool
        ensures { result ≡ was_asked_again self.now }
    {
        self.asked_again
    }

    /// How many bytes the calls of `read` gave so far.
    pub fn count(&self) -> u64
        ensures { result ≡ read_count self.now }
    {
        self.count
    }

    /// How often a flush was asked for so far, modulo 2^64.
    pub fn flush_count(&self) -> u64
        ensures { result ≡ flush_count self.now }
    {
        self.flush_count
    }

    /// Whether a write was asked for so far, and no flush behind it.
    pub fn unflushed(&self) -> bool
        ensures { result ≡ is_unflushed self.now }
    {
        self.unflushed
    }

    /// Whether bytes were lost since no more than 2^64 - 1 can be counted: the one failure of a writer that no call of
    /// it told.
    pub fn lost(&self) -> bool
        ensures { result ≡ has_lost self.now }
    {
        self.lost
    }

    /// Keeps a failure, where it is the first.
    fn fail(&mut self)
        ensures inner { device_inner self.new ≡ device_inner self.old }
        ensures failed { failed_at self.new ≡ first_failure (failed_at self.old) (read_count self.old) }
        ensures ended { has_ended self.new ≡ has_ended self.old }
        ensures again { was_asked_again self.new ≡ was_asked_again self.old }
        ensures count { read_count self.new ≡ read_count self.old }
        ensures flushes { flush_count self.new ≡ flush_count self.old }
        ensures unflushed { is_unflushed self.new ≡ is_unflushed self.old }
        ensures lost { has_lost self.new ≡ has_lost self.old }
    {
        if self.failed_at.is_none() {
            self.failed_at = Some(self.count);
        }
    }
}

#[cfg(test)]
mod tests;
