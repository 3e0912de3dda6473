//! Canonical modules: the one answer of bytes to bytes, by value and between a reader and a writer; whether an input is
//! accepted; and the comparison of two inputs.
#![tactic(auto)]

mod accepting;
mod canonical;
mod comparing;
mod comparing_from;
mod denoted;
mod fault;
mod fixed;
mod from_reader;
mod law;
mod normalising;
mod printing;
mod reading;
mod rendering;
mod running;
mod version;

pub use accepting::accept;
pub use comparing::{Comparison, Side, compare};
pub use comparing_from::compare_from;
pub use fault::{Refusal, RunFault};
pub use fixed::is_canonical;
pub use law::{
    always_judged, answers_are_fixed, answers_spell, never_both, never_oversize, one_answer,
    one_fault, one_meaning, same_bytes_same_module, texts_keep_answers,
};
pub use normalising::normalise;
pub use printing::to_text;
pub use reading::{accept_from, normalise_from, text_from};
pub use rendering::{Piece, pieces, render};
pub use running::{Job, run};
pub use version::VERSION;
