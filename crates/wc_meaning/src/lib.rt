//! What the fields of a text denote, in the standard's terms alone.
#![tactic(auto)]

mod laws;

pub use laws::{fault_as_stored, means_as_stored, one_answer, placed_as_said};
