//! Modules from bytes.

mod byte;
mod code;
mod contents;
mod expression;
mod externals;
mod from_source;
mod front;
mod immediates;
mod integer;
mod locals;
mod module;
mod name;
mod pace;
mod section;
mod signed;
mod types;
mod vector;

ghost use Rattle.std.specs.Prelude.{◌≡◌, ◌≤◌, ◌++◌, length, IfSome, IfErr, OnOk, Some, false, ℕ};
ghost use Rattle.std.specs.Io.KnownBytes.{IsAtEnd};
ghost use Rattle.wc_device.specs.Standard.Device.{device_inner, failed_at, has_failed, has_ended, was_asked_again};
ghost use Rattle.wc_device.specs.Standard.Device.{read_count, buffer_size};
ghost use Rattle.wc_binary.specs.Standard.Decoding.{Decodes, DecodesOnly, DecodesOnlyFault, DecodesNear, DecodesCut};
ghost use Rattle.wc_binary.specs.Standard.Decoding.{is_read_fault};

use crate::fault::BinFault;
use crate::source::{Bytes, Feed};
pub use byte::ByteTable;
use module::whole_module;
use std::alloc::Global;
use std::io::Read;
use wc_ast::Module;
use wc_device::{BUFFER_SIZE, Device};

/// The module that the bytes spell (Core 1.0, 5.5.15), or else their first fault. A byte slice never fails to be read.
pub fn decode(alloc: Global, bytes: &[u8]) -> Result<Module, BinFault>
    ensures decodes { Decodes bytes.now result }

    // Bytes that spell a module are answered by it, and those that have a fault by that, unless memory is refused.
    ensures only { DecodesOnly bytes.now result }
    ensures only_fault { DecodesOnlyFault bytes.now result }
    ensures read { is_read_fault result ≡ false }
{
    let mut source = Bytes { bytes, at: 0 };
    whole_module(alloc, &mut source)
}

/// The same over `front` and then what the reader gives, in whatever pieces, to the reader's end. A refusal is told
/// after at most 4,096 bytes were read past those behind which the fault shows.
pub fn decode_from<R: Read>(
    alloc: Global,
    front: &[u8],
    device: &mut Device<R>,
) -> Result<Module, BinFault>
    requires well { has_failed device.old ≡ false }
    requires short { length front.now ≤ buffer_size }
    requires counted { length front.now ≡ read_count device.old }
    ensures decodes { IfSome (R.remaining (device_inner device.old)) (λ rest. Decodes (front.now ++ rest) result) }
    ensures only { IfSome (R.remaining (device_inner device.old)) (λ rest. DecodesOnly (front.now ++ rest) result) }
    ensures only_fault { IfSome (R.remaining (device_inner device.old))
        (λ rest. DecodesOnlyFault (front.now ++ rest) result) }
    ensures near { IfSome (R.remaining (device_inner device.old))
        (λ rest. DecodesNear (read_count device.new) (front.now ++ rest) result) }
    ensures end { OnOk result (IsAtEnd (R.remaining (device_inner device.new))) }
    ensures read { is_read_fault result ≡ has_failed device.new }
    ensures read_at { IfErr result (λ e. (at : ℕ) → e ≡ BinFault.Read at → at ≡ read_count device.new) }

    // The failure that is told is the device's first, and nothing is read after it or after the end.
    ensures first_failure { IfErr result (λ e. (at : ℕ) → e ≡ BinFault.Read at → failed_at device.new ≡ Some at) }
    ensures again { has_ended device.old ≡ false → was_asked_again device.new ≡ was_asked_again device.old }

    // A fault in bytes that were read is told, and no failure of a later read: where one is told, the bytes before it
    // have no fault that shows before their end.
    ensures cut { IfSome (R.remaining (device_inner device.old)) (λ rest. DecodesCut (front.now ++ rest) result) }
{
    let mut buffer = [0u8; BUFFER_SIZE];
    buffer[..front.len()].copy_from_slice(front);
    let mut feed = Feed {
        device,
        buffer,
        at: 0,
        end: front.len(),
    };
    whole_module(alloc, &mut feed)
}
