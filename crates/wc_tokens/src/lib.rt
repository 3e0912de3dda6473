//! Tokens of the WebAssembly text format, with the values of strings and of integer literals.
#![tactic(auto)]

mod bytes;
mod chunks;
mod classes;
mod digits;
mod elements;
mod fault;
mod heads;
mod laws;
mod lines;
mod names;
mod next;
mod numbers;
mod opened;
mod plain;
mod simple;
mod spaces;
mod stream;
mod strings;
mod token;
mod tokens;
mod values;
mod whole;

pub use elements::{Element, Meaning, read_element};
pub use fault::{LexFault, LexWhy, Stop};
pub use laws::{always_one, never_both, one_fault, one_list};
pub use numbers::{Num, integer, unsigned};
pub use stream::Lexer;
pub use strings::string_bytes;
pub use token::{Token, TokenKind};
pub use tokens::Tokens;
pub use whole::lex;
