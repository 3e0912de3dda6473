//! The rules of validation that a converter keeps: every rule on a module but the typing of instructions.
#![tactic(auto)]

mod bodies;
mod checking;
mod constants;
mod context;
mod definitions;
mod exports;
mod fault;
mod imports;
mod instructions;
mod names;
mod segments;
mod sizes;
mod start;

pub use checking::check;
pub use fault::{CheckFault, CheckWhy, Item};
