//! Copies that may want memory.

ghost use Rattle.std.specs.Prelude.{◌≡◌, IfOk};

use std::alloc::AllocError;

/// A part of a module that can be copied.
pub trait TryClone: Sized {
    /// An equal value, in memory of its own from the same allocator. The error is want of memory.
    fn try_clone(&self) -> Result<Self, AllocError>
        ensures { IfOk result (λ copy. copy ≡ self.now) };
}
