//! A few bytes in place.

ghost use Rattle.std.specs.Prelude.{◌≡◌, [], ◌∷◌, ◌++◌, OnSome};

use std::marker::Model;

/// How many bytes stand in place at most.
const FEW: usize = 14;

/// At most 14 bytes, in place. A contract sees the bytes that were added.
#[derive(Drop)]
pub(crate) struct FewBytes {
    len: u8,
    bytes: [u8; FEW],
}

impl Model for FewBytes {
    ghost use Rattle.std.specs.Prelude.{ℕ, List, take, ◌≤◌};

    ghost Value = { List ℕ };

    ghost view = { λ few. take few.len few.bytes };

    ghost invariant = { λ few. few.len ≤ 14 };
}

impl FewBytes {
    /// No bytes.
    #[inline(always)]
    pub(crate) fn new() -> FewBytes
        ensures { result ≡ [] }
    {
        FewBytes {
            len: 0,
            bytes: [0; FEW],
        }
    }

    /// Adds a byte at the end. None where as many as can stand in place are there.
    #[inline(always)]
    pub(crate) fn try_push(&mut self, byte: u8) -> Option<()>
        ensures { OnSome result (self.new ≡ self.old ++ byte ∷ []) }
    {
        let place = usize::from(self.len);
        if place == FEW {
            return None;
        }
        self.bytes[place] = byte;
        self.len += 1;
        Some(())
    }

    /// The bytes, in order.
    #[inline(always)]
    pub(crate) fn as_slice(&self) -> &[u8]
        ensures { result.now ≡ self.now }
    {
        &self.bytes[..usize::from(self.len)]
    }
}
