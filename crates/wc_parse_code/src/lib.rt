//! What a text says, token by token: type uses and the instructions of a body that are being said.
#![tactic(auto)]

mod awaiting;
mod body_draft;
mod ending;
mod heads;
mod held;
mod immediates;
mod laws;
mod opening;
mod row;
mod saying;
mod stack;
mod use_draft;
mod word;

pub use body_draft::BodyDraft;
pub use laws::{always_a_value, one_value};
pub use use_draft::UseDraft;
pub use word::{Word, identifier_of, index_of, number_in};
