//! The module that a text denotes, or the first fault of its names.
#![tactic(auto)]

pub mod counts;
pub mod datas;
pub mod elems;
pub mod exports;
pub mod funcs;
pub mod globals;
pub mod imports;
pub mod indices;
pub mod law;
pub mod lists;
pub mod offset;
pub mod ranges;
pub mod resolving;
pub mod start;

pub use crate::law::one_answer;
pub use crate::resolving::resolve;
