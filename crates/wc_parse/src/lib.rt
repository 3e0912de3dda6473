//! What a text says: from its tokens to its fields (Core 1.0, 6.6).
#![tactic(auto)]

mod ending;
mod externals;
mod fault;
mod fields;
mod laws;
mod refusal;
mod stream;
mod taking;
mod text_draft;
mod wholes;
mod words;

pub use fault::SynFault;
pub use fields::parse;
pub use laws::{always_one, few_fields, never_both, one_fault, one_list, one_written_list};
pub use refusal::TextRefusal;
pub use stream::parse_text;
