//! Where bytes come from, one at a time, or those at hand at once.

pub mod bytes;
pub mod feed;

ghost use Rattle.std.specs.Prelude.{◌≡◌, ◌≤◌, ◌+◌, ◌↔◌, ℕ, min, length, OnOk, IsSome, IfSome};
ghost use Rattle.wc_binary.specs.Reading.Source.{Input, NextGives, TakesBehind, Passes, AreAhead};

use crate::fault::BinFault;
pub use bytes::Bytes;
pub use feed::Feed;
use std::alloc::AllocError;

/// The bytes of an input. `at_hand` tells how many of them can be taken without a read.
pub trait Source {
    ghost input: { Self → Input };

    ghost at_hand: { Self → ℕ };

    /// How many bytes were taken.
    fn place(&self) -> u64
        ensures { result ≡ (input self.now).place };

    /// The next byte, or none at the end. Its only error is a failed read.
    fn next(&mut self) -> Result<Option<u8>, BinFault>
        ensures { NextGives (input self.old) (input self.new) result };

    /// Takes the bytes that are at hand, but at most `most`, and puts them at the end of `out`. Nothing is read for
    /// that, so there may be none. Its only error is want of memory, where none is taken.
    fn take(&mut self, most: usize, out: &mut Vec<u8>) -> Result<(), AllocError>
        ensures taken { TakesBehind most (input self.old) (input self.new) out.old.items out.new.items result }
        ensures amount { OnOk result ((input self.new).place ≡ (input self.old).place + min most (at_hand self.old)) };

    /// The next `count` bytes, where so many are at hand. None is taken or read.
    fn ahead(&self, count: usize) -> Option<&[u8]>
        ensures ahead { IfSome result (λ bytes. AreAhead (input self.now) count bytes.now) }
        ensures variant { IsSome result ↔ (count ≤ at_hand self.now) };

    /// The bytes that are at hand, but at most `most`. None is taken or read.
    fn front(&self, most: usize) -> &[u8]
        ensures ahead { AreAhead (input self.now) (length result.now) result.now }
        ensures amount { length result.now ≡ min most (at_hand self.now) };

    /// Drops the bytes that are at hand, but at most `most`, and answers how many. Nothing is read for that.
    fn pass(&mut self, most: u64) -> u64
        ensures passed { Passes most (input self.old) (input self.new) result }
        ensures amount { result ≡ min most (at_hand self.old) };
}
