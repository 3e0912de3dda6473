//! What a text declares: its index spaces and its types, or the first fault of the two.
#![tactic(auto)]

pub mod declared;
pub mod fault;
pub mod gathering;
pub mod inner;
pub mod judging;
pub mod keyed;
pub mod kind;
pub mod law;
pub mod listing;
pub mod order;
pub mod parts;
pub mod room;
pub mod spaces;

pub use crate::declared::{Declared, declare};
pub use crate::fault::NameFault;
pub use crate::kind::SpaceKind;
pub use crate::law::imports_first;
