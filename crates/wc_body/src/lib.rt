//! Instructions and the bodies of functions: what a body is made of (`instr`, `labels`, `entry`), the builder that
//! takes its entries one by one (`builder`) or as runs (`runs`), the bytes that keep each (`bytes`), bodies and rows of
//! bodies (`kept`), what they need of what is around them (`needs`), and the walks over their entries (`walks`).
#![tactic(auto)]

pub mod body_law;
pub mod builder;
mod bytes;
pub mod entry;
pub mod instr;
pub mod kept;
pub mod labels;
pub mod needs;
mod runs;
pub mod try_clone;
pub mod walks;

pub use crate::body_law::entries_tell_bodies;
pub use crate::builder::{BodyBuilder, BuildFault};
pub use crate::entry::{Entry, Kind};
pub use crate::instr::{BlockType, Instr, MemArg};
pub use crate::kept::bodies::Bodies;
pub use crate::kept::body::{Body, NESTING_LIMIT};
pub use crate::kept::body_ref::{BodyRef, BodyRefs};
pub use crate::kept::constant::Constant;
pub use crate::labels::Labels;
pub use crate::needs::{Needs, OwnNeeds};
pub use crate::try_clone::TryClone;
pub use crate::walks::bounded::Bounded;
pub use crate::walks::brief::Brief;
pub use crate::walks::entries::Entries;
pub use crate::walks::numbered::Numbered;
pub use crate::walks::short::Short;
