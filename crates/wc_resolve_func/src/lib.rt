//! Functions and constant expressions of a text, with numbers in place of identifiers and type uses.
#![tactic(auto)]

mod constant;
mod counts;
mod func;
mod law;
mod local_space;
mod local_types;
mod uses;

pub use constant::resolve_constant;
pub use counts::param_counts;
pub use func::resolve_func;
pub use law::functions_fit;
