//! The module that a text denotes (Core 1.0, chapter 6), or the first fault of the text.
#![tactic(auto)]

mod fault;
mod law;
mod place;
mod reading;

pub use fault::TextFault;
pub use law::{always_one, never_both, one_fault, one_module};
pub use reading::read;
