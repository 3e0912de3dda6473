//! Whether the bytes of two readers denote the same module.

ghost use Rattle.std.specs.Prelude.{ℕ, ◌≡◌, ◌≢◌, IfErr, IfOk, IfSome, OnOk, Some, false};
ghost use Rattle.std.specs.Io.KnownBytes.{IsAtEnd};
ghost use Rattle.wc_device.specs.Standard.Device.{device_inner, failed_at, has_failed, has_ended, was_asked_again};
ghost use Rattle.wc_device.specs.Standard.Device.{read_count};
ghost use Rattle.wc_canon.specs.declared.fault.Refusal.TheVariants as refusals;
ghost use Rattle.wc_canon.specs.Standard.Run.{RefusesNear, ReadsCut, is_read_fault};
ghost use Rattle.wc_canon.specs.Standard.Comparing.{ComparesFrom, OfSide, WasJudged, GoesOver, is_read_fault_of};
ghost use Rattle.wc_canon.specs.Answering.Sides.{IsJudgedFrom, IsUnjudged};

use crate::comparing::{Comparison, Side, tell_apart};
use crate::fault::{Refusal, RunFault};
use crate::reading::normalise_from;
use std::alloc::Global;
use std::io::Read;
use wc_device::Device;

/// The answer to a reader, or the refusal of its bytes; else why neither is known.
fn judge_from<R: Read>(
    alloc: Global,
    r: &mut Device<R>,
) -> Result<Result<Vec<u8>, Refusal>, RunFault>
    requires well { has_failed r.old ≡ false }
    requires unread { read_count r.old ≡ 0 }
    ensures judged { IfOk result (IsJudgedFrom (R.remaining (device_inner r.old))) }
    ensures near { IfOk result (λ j. IfErr j (λ f. IfSome (R.remaining (device_inner r.old))
        (RefusesNear (read_count r.new) (RunFault.Refused f)))) }
    ensures goes_over { OnOk result (WasJudged (R.remaining (device_inner r.old)) (R.remaining (device_inner r.new))
        (read_count r.new)) }
    ensures memory { IfOk result (λ j. IfErr j (λ f. f ≢ refusals.Memory)) }
    ensures unjudged { IfErr result IsUnjudged }
    ensures read { is_read_fault result ≡ has_failed r.new }
    ensures first_failure { IfErr result (λ e. (at : ℕ) → e ≡ RunFault.Read at → failed_at r.new ≡ Some at) }
    ensures again { has_ended r.old ≡ false → was_asked_again r.new ≡ was_asked_again r.old }
    ensures cut { IfErr result (λ e. IfSome (R.remaining (device_inner r.old)) (ReadsCut e)) }
{
    match normalise_from(alloc, r) {
        Ok(bytes) => Ok(Ok(bytes)),
        Err(RunFault::Refused(refusal)) => Ok(Err(refusal)),
        Err(fault) => Err(fault),
    }
}

/// Whether two readers' bytes denote the same module, as `compare` tells it of these bytes. Neither input is held, and
/// one that is refused before its end isn't read further than `normalise_from` reads it.
///
/// # Errors
/// In this order: a failed read of A, a failed read of B, the refusal of A, the refusal of B; want of memory wherever
/// it occurs, of the side that was judged. `RunFault::Write` never comes.
pub fn compare_from<R: Read, S: Read>(
    alloc: Global,
    a: &mut Device<R>,
    b: &mut Device<S>,
) -> Result<Comparison, (Side, RunFault)>
    requires well_a { has_failed a.old ≡ false }
    requires unread_a { read_count a.old ≡ 0 }
    requires well_b { has_failed b.old ≡ false }
    requires unread_b { read_count b.old ≡ 0 }
    ensures compares { ComparesFrom (R.remaining (device_inner a.old)) (S.remaining (device_inner b.old)) result }
    ensures near { IfErr result (λ e. OfSide e.0
        (λ f. IfSome (R.remaining (device_inner a.old)) (RefusesNear (read_count a.new) f))
        (λ f. IfSome (S.remaining (device_inner b.old)) (RefusesNear (read_count b.new) f)) e.1) }
    ensures memory { IfErr result (λ e. e.1 ≢ RunFault.Refused refusals.Memory) }

    // Behind a comparison or a refusal both sides were judged, B also where A is refused. Want of memory is told of A
    // only while nothing was asked of B, and of B only once A was judged.
    ensures goes_over { GoesOver
        (WasJudged (R.remaining (device_inner a.old)) (R.remaining (device_inner a.new)) (read_count a.new))
        (WasJudged (S.remaining (device_inner b.old)) (S.remaining (device_inner b.new)) (read_count b.new))
        (b.new ≡ b.old) result }

    // A read is told as failed exactly where it did, at its place, and nothing is read after that or after the end.
    ensures read_a { is_read_fault_of Side.A result ≡ has_failed a.new }
    ensures read_b { is_read_fault_of Side.B result ≡ has_failed b.new }
    ensures first_failure { IfErr result (λ e. OfSide e.0
        (λ f. (at : ℕ) → f ≡ RunFault.Read at → failed_at a.new ≡ Some at)
        (λ f. (at : ℕ) → f ≡ RunFault.Read at → failed_at b.new ≡ Some at) e.1) }
    ensures again_a { has_ended a.old ≡ false → was_asked_again a.new ≡ was_asked_again a.old }
    ensures again_b { has_ended b.old ≡ false → was_asked_again b.new ≡ was_asked_again b.old }
    ensures cut { IfErr result (λ e. OfSide e.0
        (λ f. IfSome (R.remaining (device_inner a.old)) (ReadsCut f))
        (λ f. IfSome (S.remaining (device_inner b.old)) (ReadsCut f))
        e.1) }
{
    let first = match judge_from(alloc, a) {
        Ok(first) => first,
        Err(fault) => return Err((Side::A, fault)),
    };
    let second = match judge_from(alloc, b) {
        Ok(second) => second,
        Err(fault) => return Err((Side::B, fault)),
    };
    match (first, second) {
        (Ok(x), Ok(y)) => Ok(tell_apart(x.as_slice(), y.as_slice())),
        (Err(refusal), _) => Err((Side::A, RunFault::Refused(refusal))),
        (Ok(_), Err(refusal)) => Err((Side::B, RunFault::Refused(refusal))),
    }
}
