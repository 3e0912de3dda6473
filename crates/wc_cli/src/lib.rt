//! The command line of `wcanon`: its words, what they ask for, and how that is carried out and told.
#![tactic(auto)]

mod acting;
mod command_line;
mod commands;
mod failure;
mod parsing;
mod reading;
mod telling;
mod turns;
mod writing;

pub use acting::act;
pub use command_line::{Ask, Line};
pub use failure::{Failure, report};
pub use parsing::{lines, status_of};
pub use turns::{Opens, act_each};
