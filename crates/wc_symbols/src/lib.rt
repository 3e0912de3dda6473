//! What each token is to the grammar of the text format: its kind and its value.
#![tactic(auto)]

mod digits;
mod keyword;
mod law;
mod name;
mod number;
mod shape;
mod string;
mod string_values;
mod symbol;
mod token;
mod usual;
mod utf8;
mod word;

pub use law::{literals_have_bits, one_symbol, some_symbol};
pub use string_values::{StringValue, string_value, symbol_of_string};
pub use symbol::{Symbol, Value};
pub use token::symbol_of;
pub use usual::{
    symbol_of_keyword, symbol_of_name, symbol_of_number, symbol_of_type, usual_keyword, usual_name,
    usual_number, usual_type,
};
