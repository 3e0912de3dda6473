//! A whole input.

ghost use Rattle.std.specs.Prelude.{◌≡◌, [], length, IfSome, OnOk, Some, false, true, not};
ghost use Rattle.std.specs.Io.KnownBytes.{IsAtEnd};
ghost use Rattle.wc_device.specs.Standard.Device.{device_inner, has_failed, has_ended, was_asked_again, read_count};
ghost use Rattle.wc_cli.specs.Answering.Reading.{Reads};
ghost use Rattle.wc_cli.specs.Standard.Inputs.{is_new_input};
ghost use Rattle.wc_cli.specs.Standard.Looking.{IsCutOff, IsBroken, IsLookedAt};

use crate::failure::Failure;
use std::alloc::Global;
use std::io::Read;
use wc_canon::accept_from;
use wc_device::{BUFFER_SIZE, Device};

/// Whether nothing was read of an input yet, not even its end, where it is there, and no call of it failed.
pub(crate) fn is_new<R: Read>(input: &Option<Device<R>>) -> bool
    ensures { result ≡ is_new_input input.now }
{
    match input {
        Some(r) => !r.failed() && !r.ended() && r.count() == 0,
        None => true,
    }
}

/// Whether a reader can be read as far as its bytes are judged. Where memory was refused before anything was read, one
/// byte is asked for.
pub(crate) fn is_readable<R: Read>(alloc: Global, r: &mut Device<R>) -> bool
    requires well { has_failed r.old ≡ false }
    requires more { has_ended r.old ≡ false }
    requires unread { read_count r.old ≡ 0 }
    ensures fails { result ≡ not (has_failed r.new) }
    ensures cut { result ≡ false → IsCutOff R.remaining (Some r.old) (Some r.new) }
    ensures looks { result ≡ true → IsLookedAt (Some r.new) }
    ensures again { was_asked_again r.new ≡ was_asked_again r.old }
{
    let _judged = accept_from(alloc, r);
    if r.failed() {
        return false;
    }
    if r.ended() || r.count() > 0 {
        return true;
    }
    r.read(&mut [0u8; 1]).is_ok()
}

/// The reader's bytes to its end, each piece put into memory that has none before the next read. An error of the reader
/// of any kind ends it.
pub(crate) fn read_all<'a, R: Read>(
    path: &'a str,
    r: &mut Device<R>,
    bytes: &mut Vec<u8>,
) -> Result<(), Failure<'a>>
    requires well { has_failed r.old ≡ false }
    requires more { has_ended r.old ≡ false }
    requires unread { read_count r.old ≡ 0 }
    requires none { bytes.old.items ≡ [] }
    ensures whole { OnOk result (IfSome (R.remaining (device_inner r.old)) (λ x. bytes.new.items ≡ x)) }

    // Where a read failed, all that was read before is there: none is made once memory was refused.
    ensures held { has_failed r.new ≡ true → length bytes.new.items ≡ read_count r.new }
    ensures reads { Reads path.now (has_failed r.new) result }
    ensures end { OnOk result (IsAtEnd (R.remaining (device_inner r.new))) }
    ensures cut { has_failed r.new ≡ true → IsBroken R.remaining (Some r.old) (Some r.new) }
    ensures again { was_asked_again r.new ≡ was_asked_again r.old }
{
    let mut buffer = [0u8; BUFFER_SIZE];
    loop {
        let given = match r.read(&mut buffer) {
            Ok(n) => n,
            Err(_) => return Err(Failure::CannotRead { path }),
        };
        if given == 0 {
            return Ok(());
        }
        if bytes.extend_from_slice(&buffer[..given]).is_err() {
            return Err(Failure::OutOfMemory);
        }
    }
}
