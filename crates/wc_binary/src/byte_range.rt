//! The range of bytes (Core 1.0, 5.2.1).

ghost use Rattle.std.specs.List.{AllByRecursion};
ghost use Rattle.wc_binary.specs.Standard.Values.{IsByte};

/// Nothing is done: what a slice of bytes holds are numbers from 0 to 255.
#[inline(always)]
pub fn are_bytes(bytes: &[u8])
    ensures { AllByRecursion IsByte bytes.now }
{}
