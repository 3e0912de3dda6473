//! Modules that a seed draws, as bytes and as texts: such as compilers, linkers and people write them, and of awkward
//! shapes.
#![tactic(auto)]

mod awkward;
mod binary;
mod drawing;
mod draws;
mod library;
mod names;
mod operator;
mod pen;
mod plan;
mod shape;
mod sheet;
mod spelling;
mod text;

pub use awkward::{Row, Shapes, put_names, put_names_text, put_row_text, put_rows};
pub use binary::put_module;
pub use draws::Draws;
pub use library::Library;
pub use plan::{Fault, Kind, Plan};
pub use sheet::Sheet;
pub use text::{Style, put_text};
