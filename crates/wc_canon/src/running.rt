//! From a reader to a writer.

ghost use Rattle.std.specs.Prelude.{ℕ, ◌≡◌, ◌≤◌, length, take, IfOk, IfErr, IfSome, IsErrOf, OnOk, OnErr, Some, false};
ghost use Rattle.std.specs.Io.KnownBytes.{Appends, IsAtEnd};
ghost use Rattle.wc_device.specs.Standard.Device.{device_inner, failed_at, has_failed, has_ended, was_asked_again};
ghost use Rattle.wc_device.specs.Standard.Device.{read_count};
ghost use Rattle.wc_print.specs.Standard.Layout.{layout};
ghost use Rattle.wc_print.specs.Standard.Printed.{text};
ghost use Rattle.wc_canon.specs.declared.fault.Refusal.TheVariants as refusals;
ghost use Rattle.wc_canon.specs.Standard.Run.{Answers, FlushesBehind, FlushesOnce, SendsAlike, RefusesNear, ReadsCut};
ghost use Rattle.wc_canon.specs.Standard.Run.{IsQuiet, is_read_fault, is_write_fault};

use crate::fault::RunFault;
use crate::reading::{accepted_from, normalise_from};
use std::alloc::Global;
use std::io::{Read, Write};
use wc_ast::Module;
use wc_device::Device;
use wc_print::print_to;

/// What a run writes for an input that is accepted.
#[derive(Clone, Copy, Debug, PartialEq, Eq)]
pub enum Job {
    /// The canonical bytes.
    Binary,
    /// The printed text.
    Text,
}

/// Writes all the bytes, and then flushes once. Behind a failure the writer isn't asked.
fn send<W: Write>(w: &mut Device<W>, bytes: &[u8]) -> Result<u64, RunFault>
    requires { has_failed w.old ≡ false }
    ensures ok { IfOk result (λ n. n ≡ length bytes.now) }
    ensures appends { OnOk result
        (Appends (W.contents (device_inner w.old)) (W.contents (device_inner w.new)) bytes.now) }
    ensures wrote { IfErr result (λ e. (n : ℕ) × (e ≡ RunFault.Write n) × (n ≤ length bytes.now)
        × Appends (W.contents (device_inner w.old)) (W.contents (device_inner w.new)) (take n bytes.now)) }
    ensures write { is_write_fault result ≡ has_failed w.new }
    ensures flushes { FlushesBehind (length bytes.now) w.old w.new result }
    ensures again { was_asked_again w.new ≡ was_asked_again w.old }
{
    match w.send(bytes) {
        Ok(()) => Ok(bytes.len() as u64),
        Err(written) => Err(RunFault::Write { written }),
    }
}

/// Writes the text of a module, and then flushes once. Where memory is short, so are the pieces: nothing but the writer
/// can fail. Behind a failure the writer isn't asked.
fn send_text<W: Write>(alloc: Global, w: &mut Device<W>, module: Module) -> Result<u64, RunFault>
    requires { has_failed w.old ≡ false }
    ensures ok { IfOk result (λ n. n ≡ length (text (layout «module»))) }
    ensures appends { OnOk result (Appends (W.contents (device_inner w.old)) (W.contents (device_inner w.new))
        (text (layout «module»))) }
    ensures wrote { IfErr result (λ e. (n : ℕ) × (e ≡ RunFault.Write n) × (n ≤ length (text (layout «module»)))
        × Appends (W.contents (device_inner w.old)) (W.contents (device_inner w.new))
        (take n (text (layout «module»)))) }
    ensures write { is_write_fault result ≡ has_failed w.new }
    ensures flushes { FlushesBehind (length (text (layout «module»))) w.old w.new result }
    ensures again { was_asked_again w.new ≡ was_asked_again w.old }
{
    match print_to(alloc, w, &module) {
        Ok(n) => Ok(n),
        Err(n) => Err(RunFault::Write { written: n }),
    }
}

/// Reads an input, writes the answer to it and nothing else, then flushes once, and answers how many bytes it wrote.
/// Where the answer isn't written whole, nothing is flushed.
///
/// Nothing is written before the whole answer stands; a text stands with its module, and goes out in pieces as it is
/// printed, by shorter ones where memory is short. Where a binary is refused before its end, the rest isn't read: at
/// most 4,096 bytes are read past the byte where the fault shows. A text is read to its end, and then judged.
///
/// # Errors
/// `RunFault::Refused` where the input isn't accepted. `RunFault::Read` exactly where the reader failed, and
/// `RunFault::Write` exactly where the writer did; neither is tried again. `RunFault::Memory` where a growth of memory
/// was refused.
pub fn run<R: Read, W: Write>(
    alloc: Global,
    job: Job,
    r: &mut Device<R>,
    w: &mut Device<W>,
) -> Result<u64, RunFault>
    requires reader { has_failed r.old ≡ false }
    requires writer { has_failed w.old ≡ false }
    requires unread { read_count r.old ≡ 0 }

    ensures read { is_read_fault result ≡ has_failed r.new }
    ensures write { is_write_fault result ≡ has_failed w.new }
    ensures read_at { IfErr result (λ e. (at : ℕ) → e ≡ RunFault.Read at → at ≡ read_count r.new) }
    ensures memory { ¬ (IsErrOf result (RunFault.Refused refusals.Memory)) }

    // The failed read that is told is the reader's first failure, and nothing is read after it or after the end.
    ensures first_failure { IfErr result (λ e. (at : ℕ) → e ≡ RunFault.Read at → failed_at r.new ≡ Some at) }
    ensures again { has_ended r.old ≡ false → was_asked_again r.new ≡ was_asked_again r.old }

    // An answer is that of all bytes of the reader.
    ensures end { OnOk result (IsAtEnd (R.remaining (device_inner r.new))) }

    // A fault in bytes that were read is told, and no failure of a later read: where one is told of a binary, the bytes
    // before it have no fault that shows before their end. A text isn't judged before all of it was read.
    ensures cut { IfErr result (λ e. IfSome (R.remaining (device_inner r.old)) (ReadsCut e)) }

    ensures quiet { IsQuiet (W.contents (device_inner w.old)) (W.contents (device_inner w.new)) result }
    ensures unasked { is_write_fault result ≡ false → OnErr result (w.new ≡ w.old) }
    ensures answers { Answers job (R.remaining (device_inner r.old)) (W.contents (device_inner w.old))
        (W.contents (device_inner w.new)) result }
    ensures back { job ≡ Job.Text → IfOk result (SendsAlike (R.remaining (device_inner r.old))
        (W.contents (device_inner w.old)) (W.contents (device_inner w.new))) }
    ensures near { IfErr result (λ e. IfSome (R.remaining (device_inner r.old)) (RefusesNear (read_count r.new) e)) }

    // The writer is flushed once, behind the whole answer, and isn't asked for anything behind a failure of its own.
    ensures flushes { FlushesOnce W.contents job (R.remaining (device_inner r.old)) w.old w.new result }
    ensures writer_again { was_asked_again w.new ≡ was_asked_again w.old }
{
    match job {
        Job::Binary => send(w, &normalise_from(alloc, r)?),
        Job::Text => send_text(alloc, w, accepted_from(alloc, r)?),
    }
}
