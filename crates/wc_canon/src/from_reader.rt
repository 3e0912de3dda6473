//! The module that the bytes of a reader denote.

ghost use Rattle.std.specs.Prelude.{ℕ, List, Option as Maybe, ◌≡◌, ◌≤◌, ◌<◌, length, IfOk};
ghost use Rattle.std.specs.Prelude.{IfErr, IfSome, IsErrOf, OnOk};
ghost use Rattle.std.specs.Prelude.{[], Some, true, false};
ghost use Rattle.std.specs.Io.KnownBytes.{Consumes, IsAtEnd};
ghost use Rattle.wc_device.specs.Standard.Device.{device_inner, failed_at, has_failed, has_ended, was_asked_again};
ghost use Rattle.wc_device.specs.Standard.Device.{read_count, buffer_size};
ghost use Rattle.wc_canon.specs.declared.fault.Refusal.{Refusal};
ghost use Rattle.wc_canon.specs.declared.fault.Refusal.TheVariants as refusals;
ghost use Rattle.wc_canon.specs.Standard.Input.{is_binary as begins_with_zero};
ghost use Rattle.wc_canon.specs.Standard.Run.{ReadsCut, is_read_fault, is_write_fault};
ghost use Rattle.wc_canon.specs.Answering.Steps.{JudgesModule, ReadsNear};

use crate::denoted::is_binary;
use crate::fault::RunFault;
use std::alloc::Global;
use std::io::Read;
use wc_ast::Module;
use wc_binary::decode_from;
use wc_device::{BUFFER_SIZE, Device};
use wc_read_text::read;

/// How many bytes each further read of a text is offered.
const TEXT_PIECE: usize = 32_768;

/// The module of an input.
#[derive(Drop)]
pub(crate) struct Found {
    pub(crate) module: Module,
    /// Whether the input is a binary.
    pub(crate) binary: bool,
    /// What nobody reads any more: the answer may have its memory.
    pub(crate) memory: Vec<u8>,
}

/// The front, and then the reader's bytes to its end. They are put behind one another in memory that has none, each
/// piece before the next read.
fn read_rest<R: Read>(front: &[u8], r: &mut Device<R>, bytes: &mut Vec<u8>) -> Result<(), RunFault>
    requires well { has_failed r.old ≡ false }
    requires counted { length front.now ≡ read_count r.old }
    requires none { bytes.old.items ≡ [] }
    ensures all { OnOk result (IsAtEnd (R.remaining (device_inner r.new))) }
    ensures whole { OnOk result ((x : Maybe (List ℕ))
        → Consumes x (R.remaining (device_inner r.old)) front.now
        → Consumes x (R.remaining (device_inner r.new)) bytes.new.items) }
    ensures count { OnOk result (length bytes.new.items ≡ read_count r.new) }

    // Where a read failed, all that was read before is there: none is made once memory was refused.
    ensures held { IfErr result (λ e. (at : ℕ) → e ≡ RunFault.Read at → length bytes.new.items ≡ at) }
    ensures read { is_read_fault result ≡ has_failed r.new }
    ensures read_at { IfErr result (λ e. (at : ℕ) → e ≡ RunFault.Read at → at ≡ read_count r.new) }
    ensures first_failure { IfErr result (λ e. (at : ℕ) → e ≡ RunFault.Read at → failed_at r.new ≡ Some at) }
    ensures again { has_ended r.old ≡ false → was_asked_again r.new ≡ was_asked_again r.old }
    ensures cut { IfErr result (λ e. (at : ℕ) → e ≡ RunFault.Read at → (x : Maybe (List ℕ))
        → Consumes x (R.remaining (device_inner r.old)) front.now → IfSome x (λ u. at ≤ length u)) }
    ensures unwritten { is_write_fault result ≡ false }
    ensures unjudged { (f : Refusal) → ¬ (IsErrOf result (RunFault.Refused f)) }
{
    bytes.extend_from_slice(front)?;
    let mut piece = [0u8; TEXT_PIECE];
    loop {
        let given = match r.read(&mut piece) {
            Ok(n) => n,
            Err(_) => return Err(RunFault::Read { at: r.count() }),
        };
        if given == 0 {
            return Ok(());
        }
        bytes.extend_from_slice(&piece[..given])?;
    }
}

/// The module of the text that begins with `front` and goes on with the reader's bytes, to its end.
fn read_text<R: Read>(alloc: Global, front: &[u8], r: &mut Device<R>) -> Result<Found, RunFault>
    requires well { has_failed r.old ≡ false }
    requires counted { length front.now ≡ read_count r.old }
    requires some { 0 < length front.now }
    requires is_text { begins_with_zero front.now ≡ false }
    ensures judges { (x : Maybe (List ℕ)) → Consumes x (R.remaining (device_inner r.old)) front.now
        → JudgesModule x result }
    ensures near { (x : Maybe (List ℕ)) → Consumes x (R.remaining (device_inner r.old)) front.now
        → IfSome x (ReadsNear (read_count r.new) result) }
    ensures read { is_read_fault result ≡ has_failed r.new }
    ensures read_at { IfErr result (λ e. (at : ℕ) → e ≡ RunFault.Read at → at ≡ read_count r.new) }
    ensures first_failure { IfErr result (λ e. (at : ℕ) → e ≡ RunFault.Read at → failed_at r.new ≡ Some at) }
    ensures again { has_ended r.old ≡ false → was_asked_again r.new ≡ was_asked_again r.old }
    ensures end { OnOk result (IsAtEnd (R.remaining (device_inner r.new))) }
    ensures cut { (x : Maybe (List ℕ)) → Consumes x (R.remaining (device_inner r.old)) front.now
        → IfErr result (λ e. IfSome x (ReadsCut e)) }
    ensures unwritten { is_write_fault result ≡ false }
    ensures memory { ¬ (IsErrOf result (RunFault.Refused refusals.Memory)) }
{
    let mut text = Vec::new(alloc);
    read_rest(front, r, &mut text)?;
    let module = read(alloc, &text)?;
    Ok(Found {
        module,
        binary: false,
        memory: text,
    })
}

/// The module of the binary that begins with `front` and goes on with the reader's bytes, to its end.
fn read_binary<R: Read>(alloc: Global, front: &[u8], r: &mut Device<R>) -> Result<Found, RunFault>
    requires well { has_failed r.old ≡ false }
    requires short { length front.now ≤ buffer_size }
    requires counted { length front.now ≡ read_count r.old }
    requires some { 0 < length front.now }
    requires is_binary { begins_with_zero front.now ≡ true }
    ensures judges { (x : Maybe (List ℕ)) → Consumes x (R.remaining (device_inner r.old)) front.now
        → JudgesModule x result }
    ensures near { (x : Maybe (List ℕ)) → Consumes x (R.remaining (device_inner r.old)) front.now
        → IfSome x (ReadsNear (read_count r.new) result) }
    ensures read { is_read_fault result ≡ has_failed r.new }
    ensures read_at { IfErr result (λ e. (at : ℕ) → e ≡ RunFault.Read at → at ≡ read_count r.new) }
    ensures first_failure { IfErr result (λ e. (at : ℕ) → e ≡ RunFault.Read at → failed_at r.new ≡ Some at) }
    ensures again { has_ended r.old ≡ false → was_asked_again r.new ≡ was_asked_again r.old }
    ensures end { OnOk result (IsAtEnd (R.remaining (device_inner r.new))) }
    ensures cut { (x : Maybe (List ℕ)) → Consumes x (R.remaining (device_inner r.old)) front.now
        → IfErr result (λ e. IfSome x (ReadsCut e)) }
    ensures unwritten { is_write_fault result ≡ false }
    ensures memory { ¬ (IsErrOf result (RunFault.Refused refusals.Memory)) }
{
    Ok(Found {
        module: decode_from(alloc, front, r)?,
        binary: true,
        memory: Vec::new(alloc),
    })
}

/// The module of a text without a byte, which is the empty one.
fn read_nothing(alloc: Global) -> Result<Found, RunFault>
    ensures judges { JudgesModule (Some []) result }
    ensures near { ReadsNear 0 result [] }
    ensures read { is_read_fault result ≡ false }
    ensures unwritten { is_write_fault result ≡ false }
    ensures memory { ¬ (IsErrOf result (RunFault.Refused refusals.Memory)) }
{
    Ok(Found {
        module: read(alloc, &[])?,
        binary: false,
        memory: Vec::new(alloc),
    })
}

/// The module that the reader's bytes denote, to the reader's end, or else their first fault. One piece is read, and
/// its first byte tells a binary, which is read no further than its fault shows; a text is read to its end.
pub(crate) fn read_module<R: Read>(alloc: Global, r: &mut Device<R>) -> Result<Found, RunFault>
    requires well { has_failed r.old ≡ false }
    requires unread { read_count r.old ≡ 0 }
    ensures judges { JudgesModule (R.remaining (device_inner r.old)) result }
    ensures near { IfSome (R.remaining (device_inner r.old)) (ReadsNear (read_count r.new) result) }
    ensures read { is_read_fault result ≡ has_failed r.new }
    ensures read_at { IfErr result (λ e. (at : ℕ) → e ≡ RunFault.Read at → at ≡ read_count r.new) }
    ensures first_failure { IfErr result (λ e. (at : ℕ) → e ≡ RunFault.Read at → failed_at r.new ≡ Some at) }
    ensures again { has_ended r.old ≡ false → was_asked_again r.new ≡ was_asked_again r.old }
    ensures end { OnOk result (IsAtEnd (R.remaining (device_inner r.new))) }
    ensures cut { IfErr result (λ e. IfSome (R.remaining (device_inner r.old)) (ReadsCut e)) }
    ensures unwritten { is_write_fault result ≡ false }
    ensures memory { ¬ (IsErrOf result (RunFault.Refused refusals.Memory)) }
{
    let mut buffer = [0u8; BUFFER_SIZE];
    let given = match r.read(&mut buffer) {
        Ok(n) => n,
        Err(_) => return Err(RunFault::Read { at: r.count() }),
    };
    let front = &buffer[..given];
    if front.is_empty() {
        read_nothing(alloc)
    } else if is_binary(front) {
        read_binary(alloc, front, r)
    } else {
        read_text(alloc, front, r)
    }
}
