//! The grammar of the WebAssembly text format over kinds of tokens, and the table by which it is read.
#![tactic(auto)]

mod kept;
mod kind;
mod laws;
mod place;
mod reading;
mod reason;
mod refusal;
mod role;
mod table;
mod why;

pub use kept::{Kept, kept_tokens};
pub use kind::Kind;
pub use laws::{always_one, never_both, one_fault, one_list};
pub use place::{Action, Frame, Move, Place};
pub use reading::Reading;
pub use reason::reason_of;
pub use refusal::Refusal;
pub use role::Role;
pub use table::{is_end, names_instr, resume, step};
pub use why::SynWhy;
