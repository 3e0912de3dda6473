//! Modules as text (Core 1.0, chapter 6), in one layout of this project's own.
#![tactic(auto)]

mod bodies;
mod definitions;
mod digits;
mod escapes;
mod externals;
mod field;
mod heads;
mod integers;
mod laws;
mod lines;
mod memory;
mod numbers;
mod offsets;
mod operands;
mod outlet;
mod pages;
mod printing;
mod rows;
mod segments;
mod short;
mod sink;
mod strings;
mod thousands;
mod typed_lines;
mod types;

pub use laws::{printed_lexes, printed_values};
pub use memory::print;
pub use outlet::print_to;
