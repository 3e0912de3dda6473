//! The printed text of a module reads back as the same module: it is a text of the grammar (`grammar`), its tokens say
//! the module's instructions (`instructions`) and its fields (`fields`), and these, with their names resolved, denote
//! the module (`names`).
#![tactic(auto)]

mod fields;
mod grammar;
mod instructions;
mod names;

pub use fields::{printed_says, reread};
pub use grammar::{module_fits, printed_is_text, printed_symbols, printed_words};
pub use instructions::told_body;
pub use names::{
    back, checked_is_known, module_has_few_locals, printed_bodies, printed_declarations,
    printed_names, printed_types, text_of,
};
