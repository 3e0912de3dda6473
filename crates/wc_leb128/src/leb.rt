ghost use Rattle.std.specs.Prelude.{◌≡◌, ◌<◌, ◌≤◌, [], ◌∷◌, ◌++◌, length, take};

use std::marker::Model;

/// The bytes of an integer: at most ten.
#[derive(Drop)]
pub struct Leb {
    bytes: [u8; 10],
    len: usize,
}

impl Model for Leb {
    ghost use Rattle.std.specs.Prelude.{ℕ, List, take, ◌≤◌};

    ghost Value = { List ℕ };

    ghost view = { λ a. take a.len a.bytes };

    ghost invariant = { λ a. a.len ≤ 10 };
}

impl Leb {
    pub(crate) fn new() -> Leb
        ensures { result ≡ [] }
    {
        Leb {
            bytes: [0; 10],
            len: 0,
        }
    }

    pub(crate) fn push(&mut self, b: u8)
        requires { length self.old < 10 }
        ensures { self.new ≡ self.old ++ b ∷ [] }
    {
        self.bytes[self.len] = b;
        self.len += 1;
    }

    /// Ten bytes, and how many of these are the integer's, which come first.
    // Who copies all ten branches by no length.
    #[inline(always)]
    pub fn padded(&self) -> (&[u8; 10], usize)
        ensures { (result.1 ≤ 10) × (take result.1 result.0.now ≡ self.now) }
    {
        (&self.bytes, self.len)
    }

    /// The bytes, in their order.
    pub fn as_slice(&self) -> &[u8]
        ensures { result.now ≡ self.now }
    {
        &self.bytes[..self.len]
    }
}
