//! The calls for C and for whatever calls C, over memory of the caller. `include/wcanon.h` declares them.
#![tactic(auto)]

mod checking;
mod comparing;
mod normalising;
mod printing;
mod putting;
mod status;
mod version;

pub use checking::wcanon_check;
pub use comparing::wcanon_compare;
pub use normalising::wcanon_normalise;
pub use printing::wcanon_to_text;
pub use version::wcanon_version;
