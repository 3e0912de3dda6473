//! What the bytes of a reader are answered.

ghost use Rattle.std.specs.Prelude.{ℕ, ◌≡◌, ◌≤◌, length, IfOk, IfErr, IfSome, IsErrOf, OnOk, Some, false};
ghost use Rattle.std.specs.Io.KnownBytes.{IsAtEnd};
ghost use Rattle.wc_device.specs.Standard.Device.{device_inner, failed_at, has_failed, has_ended, was_asked_again};
ghost use Rattle.wc_device.specs.Standard.Device.{read_count};
ghost use Rattle.wc_canon.specs.declared.fault.Refusal.TheVariants as refusals;
ghost use Rattle.wc_canon.specs.Standard.Input.{KeepsRules, IsAccepted};
ghost use Rattle.wc_canon.specs.declared.running.Job.{Job};
ghost use Rattle.wc_canon.specs.Standard.Run.{Judges, IsAnswerOf, IsOutputOf, HasSameAnswer, RefusesNear};
ghost use Rattle.wc_canon.specs.Standard.Run.{ReadsCut, is_read_fault, is_write_fault};
ghost use Rattle.wc_canon.specs.Answering.Steps.{IsModuleFault, IsSized};
ghost use Rattle.wc_print.specs.Standard.Layout.{layout};
ghost use Rattle.wc_print.specs.Standard.Printed.{text};
ghost use Rattle.wc_tokens.specs.Standard.Lexemes.{longest};
ghost use Rattle.std.specs.String.{string_bytes};

use crate::canonical::{canonical_bytes, judge_module, judge_spelled};
use crate::fault::{Refusal, RunFault};
use crate::from_reader::read_module;
use std::alloc::Global;
use std::io::Read;
use wc_ast::Module;
use wc_device::Device;
use wc_readback::text_of;

/// The canonical bytes of the module that the reader's bytes denote, to the reader's end: the answer that `normalise`
/// gives to these bytes. Those of a binary aren't held, and where they are refused before their end, the rest isn't
/// read: at most 4,096 bytes are read past the byte where the fault shows. A text is read to its end, and then judged.
///
/// # Errors
/// `RunFault::Refused` where the bytes aren't accepted. `RunFault::Read` exactly where the reader failed, which isn't
/// tried again. `RunFault::Memory` where a growth of memory was refused; `RunFault::Write` never comes.
pub fn normalise_from<R: Read>(alloc: Global, r: &mut Device<R>) -> Result<Vec<u8>, RunFault>
    requires well { has_failed r.old ≡ false }
    requires unread { read_count r.old ≡ 0 }
    ensures judges { Judges (R.remaining (device_inner r.old))
        (λ b. IsAnswerOf (R.remaining (device_inner r.old)) b.items) result }
    ensures near { IfErr result (λ e. IfSome (R.remaining (device_inner r.old)) (RefusesNear (read_count r.new) e)) }
    ensures read { is_read_fault result ≡ has_failed r.new }
    ensures read_at { IfErr result (λ e. (at : ℕ) → e ≡ RunFault.Read at → at ≡ read_count r.new) }
    ensures first_failure { IfErr result (λ e. (at : ℕ) → e ≡ RunFault.Read at → failed_at r.new ≡ Some at) }
    ensures again { has_ended r.old ≡ false → was_asked_again r.new ≡ was_asked_again r.old }
    ensures end { OnOk result (IsAtEnd (R.remaining (device_inner r.new))) }
    ensures cut { IfErr result (λ e. IfSome (R.remaining (device_inner r.old)) (ReadsCut e)) }
    ensures unwritten { is_write_fault result ≡ false }
    ensures memory { ¬ (IsErrOf result (RunFault.Refused refusals.Memory)) }
{
    let found = read_module(alloc, r)?;
    Ok(canonical_bytes(alloc, found.memory, &found.module)?)
}

/// That the module of an input breaks no rule, and that some bytes spell it, which of a binary needs no second look.
fn judge(alloc: Global, binary: bool, module: &Module) -> Result<(), Refusal>
    ensures keeps { OnOk result (KeepsRules «module».now) }
    ensures spelled { OnOk result (IsSized binary «module».now) }
    ensures err { IfErr result (IsModuleFault «module».now) }
{
    if binary {
        return judge_module(alloc, module);
    }
    judge_spelled(alloc, module)
}

/// Ok exactly where `normalise_from` has an answer, without making it.
///
/// # Errors
/// As those of `normalise_from`.
pub fn accept_from<R: Read>(alloc: Global, r: &mut Device<R>) -> Result<(), RunFault>
    requires well { has_failed r.old ≡ false }
    requires unread { read_count r.old ≡ 0 }
    ensures judges { Judges (R.remaining (device_inner r.old))
        (λ _. IfSome (R.remaining (device_inner r.old)) IsAccepted) result }
    ensures near { IfErr result (λ e. IfSome (R.remaining (device_inner r.old)) (RefusesNear (read_count r.new) e)) }
    ensures read { is_read_fault result ≡ has_failed r.new }
    ensures read_at { IfErr result (λ e. (at : ℕ) → e ≡ RunFault.Read at → at ≡ read_count r.new) }
    ensures first_failure { IfErr result (λ e. (at : ℕ) → e ≡ RunFault.Read at → failed_at r.new ≡ Some at) }
    ensures again { has_ended r.old ≡ false → was_asked_again r.new ≡ was_asked_again r.old }
    ensures end { OnOk result (IsAtEnd (R.remaining (device_inner r.new))) }
    ensures cut { IfErr result (λ e. IfSome (R.remaining (device_inner r.old)) (ReadsCut e)) }
    ensures unwritten { is_write_fault result ≡ false }
    ensures memory { ¬ (IsErrOf result (RunFault.Refused refusals.Memory)) }
{
    let found = read_module(alloc, r)?;
    judge(alloc, found.binary, &found.module)?;
    Ok(())
}

/// The module that the reader's bytes denote, to the reader's end, where they are accepted.
///
/// # Errors
/// As those of `normalise_from`.
pub(crate) fn accepted_from<R: Read>(alloc: Global, r: &mut Device<R>) -> Result<Module, RunFault>
    requires well { has_failed r.old ≡ false }
    requires unread { read_count r.old ≡ 0 }
    ensures judges { Judges (R.remaining (device_inner r.old))
        (λ m. IsOutputOf Job.Text (R.remaining (device_inner r.old)) (text (layout m))) result }
    ensures near { IfErr result (λ e. IfSome (R.remaining (device_inner r.old)) (RefusesNear (read_count r.new) e)) }
    ensures read { is_read_fault result ≡ has_failed r.new }
    ensures read_at { IfErr result (λ e. (at : ℕ) → e ≡ RunFault.Read at → at ≡ read_count r.new) }
    ensures first_failure { IfErr result (λ e. (at : ℕ) → e ≡ RunFault.Read at → failed_at r.new ≡ Some at) }
    ensures again { has_ended r.old ≡ false → was_asked_again r.new ≡ was_asked_again r.old }
    ensures end { OnOk result (IsAtEnd (R.remaining (device_inner r.new))) }
    ensures cut { IfErr result (λ e. IfSome (R.remaining (device_inner r.old)) (ReadsCut e)) }
    ensures unwritten { is_write_fault result ≡ false }
    ensures memory { ¬ (IsErrOf result (RunFault.Refused refusals.Memory)) }
{
    let found = read_module(alloc, r)?;
    judge_spelled(alloc, &found.module)?;
    Ok(found.module)
}

/// The text of the module that the reader's bytes denote, to the reader's end, as `to_text` gives it. It has the same
/// answer again, where it isn't longer than a text may be.
///
/// # Errors
/// As those of `normalise_from`.
pub fn text_from<R: Read>(alloc: Global, r: &mut Device<R>) -> Result<String, RunFault>
    requires well { has_failed r.old ≡ false }
    requires unread { read_count r.old ≡ 0 }
    ensures judges { Judges (R.remaining (device_inner r.old))
        (λ it. IsOutputOf Job.Text (R.remaining (device_inner r.old)) (string_bytes it)) result }
    ensures back { IfOk result (λ it. length (string_bytes it) ≤ longest
        → HasSameAnswer (R.remaining (device_inner r.old)) (string_bytes it)) }
    ensures near { IfErr result (λ e. IfSome (R.remaining (device_inner r.old)) (RefusesNear (read_count r.new) e)) }
    ensures read { is_read_fault result ≡ has_failed r.new }
    ensures read_at { IfErr result (λ e. (at : ℕ) → e ≡ RunFault.Read at → at ≡ read_count r.new) }
    ensures first_failure { IfErr result (λ e. (at : ℕ) → e ≡ RunFault.Read at → failed_at r.new ≡ Some at) }
    ensures again { has_ended r.old ≡ false → was_asked_again r.new ≡ was_asked_again r.old }
    ensures end { OnOk result (IsAtEnd (R.remaining (device_inner r.new))) }
    ensures cut { IfErr result (λ e. IfSome (R.remaining (device_inner r.old)) (ReadsCut e)) }
    ensures unwritten { is_write_fault result ≡ false }
    ensures memory { ¬ (IsErrOf result (RunFault.Refused refusals.Memory)) }
{
    let module = accepted_from(alloc, r)?;
    Ok(text_of(alloc, &module)?)
}
