//! Why tokens are no text.

ghost use Rattle.std.specs.Prelude.{◌≡◌};
ghost use Rattle.wc_parse.specs.declared.fault.SynFault.TheVariants.{Memory};

use std::alloc::{AllocError, AllocFailed};
use wc_syntax::{Refusal, SynWhy};

/// Why tokens are no text.
#[derive(Debug, Drop)]
pub enum SynFault {
    /// The token of the first fault, or the number of tokens where one is missing.
    Bad {
        /// The number of the token; the first one is 0.
        token: u64,
        /// The reason.
        why: SynWhy,
    },
    /// Memory was refused.
    Memory,
}

impl From<AllocError> for SynFault {
    ghost from_gives = { λ _ e. e ≡ Memory };

    fn from(_error: AllocError) -> SynFault {
        SynFault::Memory
    }
}

impl<T: Drop> From<AllocFailed<T>> for SynFault {
    ghost from_gives = { λ _ e. e ≡ Memory };

    fn from(_error: AllocFailed<T>) -> SynFault {
        SynFault::Memory
    }
}

impl From<Refusal> for SynFault {
    ghost use Rattle.wc_parse.specs.Standard.Refused.{of_refusal};

    ghost from_gives = { λ refusal e. e ≡ of_refusal refusal };

    fn from(refusal: Refusal) -> SynFault {
        match refusal {
            Refusal::Bad { token, why } => SynFault::Bad {
                token: token as u64,
                why,
            },
            Refusal::Memory => SynFault::Memory,
        }
    }
}
