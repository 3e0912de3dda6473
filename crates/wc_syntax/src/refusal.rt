//! Why tokens are no text.

ghost use Rattle.std.specs.Prelude.{◌≡◌};
ghost use Rattle.wc_syntax.specs.declared.refusal.Refusal.TheVariants.{Memory};

use crate::why::SynWhy;
use std::alloc::{AllocError, AllocFailed};

/// Why tokens are no text.
#[derive(Debug, Drop)]
pub enum Refusal {
    /// The first token with which no text, however deep, goes on, or that would be nested too deep; the number of
    /// tokens where one is missing.
    Bad { token: usize, why: SynWhy },
    /// Memory was refused.
    Memory,
}

impl From<AllocError> for Refusal {
    ghost from_gives = { λ _ e. e ≡ Memory };

    fn from(_error: AllocError) -> Refusal {
        Refusal::Memory
    }
}

impl<T: Drop> From<AllocFailed<T>> for Refusal {
    ghost from_gives = { λ _ e. e ≡ Memory };

    fn from(_error: AllocFailed<T>) -> Refusal {
        Refusal::Memory
    }
}
