//! Why a text has no module.

ghost use Rattle.std.specs.Prelude.{◌≡◌};
ghost use Rattle.wc_declare.specs.declared.fault.NameFault.TheVariants.{Memory};

use std::alloc::AllocError;
use wc_resolve_code::NameWhy;

/// Why a text has no module. After it nothing is kept.
#[derive(Clone, Copy, Debug, PartialEq, Eq)]
pub enum NameFault {
    /// The names are refused, at the token of this number.
    Bad {
        /// The number of the token.
        token: u64,
        /// The reason.
        why: NameWhy,
    },
    /// A growth was refused for want of memory.
    Memory,
}

impl From<AllocError> for NameFault {
    ghost from_gives = { λ _ e. e ≡ Memory };

    fn from(_error: AllocError) -> NameFault {
        NameFault::Memory
    }
}
