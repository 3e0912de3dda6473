//! What stands at which place: identifiers in their index spaces, the labels of the blocks that are open, and types in
//! the list of types; and the fault of the least token.
#![tactic(auto)]

mod directory;
mod labels;
mod law;
mod noted;
mod places;
mod space;
mod types;

pub use labels::Labels;
pub use law::{duplicates_in_parts, least_is_least};
pub use noted::{Fault, Noted};
pub use places::Places;
pub use space::Space;
pub use types::Types;
